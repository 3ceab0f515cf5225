// What is noted for the collections of one heap; it allocates nothing until there is something.

ghost use Rattle.std.specs.Prelude.{◌≡◌, ◌<◌, ◌≤◌, ◌++◌, ◌∷◌, [], IfErr, IfNone, IfOk, None, OnErr, OnOk, false, fold};
ghost use Rattle.remembered_set.specs.Moved.{redirected, targets_of, AreFields, AreAscending, ArePlaces};
ghost use Rattle.remembered_set.specs.Sources.{with_noted_source as noted_with, notes_in, StandOnce};
ghost use Rattle.write_barrier.specs.Forms.{bare_noted, in_full};
ghost use Rattle.write_barrier.specs.Stored.{content_of};

use boxed::BoxedSlot;
use object_layout::{Addr, Chunk, Words};
use plain_vec::ReservedVec;
use remembered_set::{RefField, Remembered};
use std::alloc::{AllocError, Global};
use std::marker::Model;
use std::mem;

/// What is noted for the collections of a heap.
#[derive(Drop)]
pub struct Noted {
    /// The fields of ancestors' objects that were seen to point down into this heap.
    pub remembered: Remembered,
    /// The references into this heap that were overwritten while it keeps them.
    pub kept: ReservedVec<Addr>,
    /// Whether it keeps them: from the fork of its task until its sweep.
    pub keeps: bool,
}

/// How it is stored.
#[derive(Drop)]
pub enum Form {
    /// Nothing is noted; whether the heap keeps references is known.
    Bare(bool),
    /// Boxed.
    Full(BoxedSlot<Noted>),
}

/// What is noted for the collections of a heap. It allocates nothing until it holds something.
pub struct SetOf {
    alloc: Global,
    form: Form,
}

impl Drop for SetOf {
    fn drop(self) {
        let SetOf { alloc: _, form: _ } = self;
    }
}

impl Model for SetOf {
    ghost use Rattle.write_barrier.specs.declared.sets.Noted.{Noted as NotedOf};

    ghost Value = { NotedOf };

    ghost use Rattle.write_barrier.specs.Forms.{in_full};

    ghost view = { λ s. in_full s.form };
}

// An empty set of a heap that keeps no references.
fn nothing(alloc: Global) -> Noted {
    Noted {
        remembered: Remembered::new(alloc),
        kept: ReservedVec::new(alloc),
        keeps: false,
    }
}

// The set of a heap that keeps no references, with these remembered fields. An empty block is freed.
fn set_in(alloc: Global, remembered: Remembered, block: BoxedSlot<Noted>) -> SetOf
    ensures { content_of result ≡ record { sources = remembered.sources; kept = []; keeps = false } }
{
    if remembered.sources().is_empty() {
        return SetOf::new(alloc);
    }
    let noted = Noted {
        remembered,
        kept: ReservedVec::new(alloc),
        keeps: false,
    };
    SetOf {
        alloc,
        form: Form::Full(block.put(noted)),
    }
}

// The existing block, or a new one; if the allocation fails, the form is returned.
fn opened(alloc: Global, form: Form) -> Result<BoxedSlot<Noted>, Form>
    ensures ok { IfOk result (λ n. content_of n ≡ content_of (in_full form)) }
    ensures places { IfOk result (λ n. (in_full form).kept.room ≤ n.kept.room) }
    ensures back { IfErr result (λ f. f ≡ form) }
{
    match form {
        Form::Full(noted) => Ok(noted),
        Form::Bare(keeps) => {
            let noted = Noted {
                remembered: Remembered::new(alloc),
                kept: ReservedVec::new(alloc),
                keeps,
            };
            match BoxedSlot::new(alloc, noted) {
                Ok(noted) => Ok(noted),
                Err(_) => Err(Form::Bare(keeps)),
            }
        }
    }
}

impl SetOf {
    /// An empty set of a heap that keeps no references.
    pub fn new(alloc: Global) -> SetOf
        ensures { result ≡ bare_noted false }
    {
        SetOf {
            alloc,
            form: Form::Bare(false),
        }
    }

    /// The fields that it remembers, in the order in which they were noted.
    pub fn sources(&self) -> &[RefField]
        ensures sources { result.now ≡ self.now.remembered.sources }
        ensures once { StandOnce self.now.remembered.sources }
    {
        match &self.form {
            Form::Bare(_) => &[],
            Form::Full(noted) => noted.get().remembered.sources(),
        }
    }

    /// The overwritten references that it has kept.
    pub fn kept(&self) -> &[Addr]
        ensures { result.now ≡ self.now.kept.items }
    {
        match &self.form {
            Form::Bare(_) => &[],
            Form::Full(noted) => noted.get().kept.as_slice(),
        }
    }

    /// Whether it keeps overwritten references.
    pub fn keeps(&self) -> bool
        ensures { result ≡ self.now.keeps }
    {
        match &self.form {
            Form::Bare(keeps) => *keeps,
            Form::Full(noted) => noted.get().keeps,
        }
    }

    /// Sets whether it keeps overwritten references from now on; it has none now.
    pub fn set_keeps(&mut self, keeps: bool)
        ensures remembered { self.new.remembered ≡ self.old.remembered }
        ensures kept { self.new.kept.items ≡ [] }
        ensures keeps { self.new.keeps ≡ keeps }
    {
        match mem::replace(&mut self.form, Form::Bare(keeps)) {
            Form::Bare(_) => {}
            Form::Full(noted) => {
                let mut noted = noted;
                noted.get_mut().kept.clear();
                noted.get_mut().keeps = keeps;
                self.form = Form::Full(noted);
            }
        }
    }

    /// Reserves capacity for `sources` more sources.
    pub fn make_room(&mut self, sources: u32) -> Result<(), AllocError>
        ensures same { content_of self.new ≡ content_of self.old }
        ensures slots { OnOk result (sources ≤ self.new.remembered.slots) }
        ensures spare { OnOk result (sources ≤ self.new.remembered.spare) }
    {
        if sources == 0 {
            return Ok(());
        }
        match opened(self.alloc, mem::replace(&mut self.form, Form::Bare(false))) {
            Ok(noted) => {
                let mut noted = noted;
                let made = noted.get_mut().remembered.make_room(sources, 0);
                self.form = Form::Full(noted);
                made
            }
            Err(form) => {
                self.form = form;
                Err(AllocError)
            }
        }
    }

    /// Reserves capacity for one more overwritten reference.
    pub fn reserve_kept(&mut self) -> Result<(), AllocError>
        ensures same { content_of self.new ≡ content_of self.old }
        ensures room { OnOk result (0 < self.new.kept.room) }
    {
        match opened(self.alloc, mem::replace(&mut self.form, Form::Bare(false))) {
            Ok(noted) => {
                let mut noted = noted;
                let made = noted.get_mut().kept.reserve(1);
                self.form = Form::Full(noted);
                made
            }
            Err(form) => {
                self.form = form;
                Err(AllocError)
            }
        }
    }

    /// Notes a source, unless it is there already.
    pub fn note(&mut self, source: RefField) -> Result<(), AllocError>
        ensures ok { OnOk result (content_of self.new ≡ record (content_of self.old) { sources = noted_with self.old.remembered.sources source }) }
        ensures err { OnErr result (content_of self.new ≡ content_of self.old) }
        ensures room { self.old.kept.room ≤ self.new.kept.room }
    {
        match opened(self.alloc, mem::replace(&mut self.form, Form::Bare(false))) {
            Ok(noted) => {
                let mut noted = noted;
                let done = noted.get_mut().remembered.note(source.object, source.field);
                self.form = Form::Full(noted);
                done
            }
            Err(form) => {
                self.form = form;
                Err(AllocError)
            }
        }
    }

    /// Keeps an overwritten reference, within the reserved capacity.
    pub fn push_kept(&mut self, reference: Addr)
        requires { 0 < self.old.kept.room }
        ensures { content_of self.new ≡ record (content_of self.old) { kept = self.old.kept.items ++ reference ∷ [] } }
    {
        let Form::Full(noted) = mem::replace(&mut self.form, Form::Bare(false)) else {
            unreachable!()
        };
        let mut noted = noted;
        noted.get_mut().kept.push_reserved(reference);
        self.form = Form::Full(noted);
    }

    /// What the sources hold now, if it points into these chunks: the addresses in the order of the sources. Without
    /// sources it looks at no chunk.
    pub fn targets<W: Words>(
        &self,
        alloc: Global,
        words: &W,
        heap: &[Chunk],
    ) -> Result<Vec<Addr>, AllocError>
        requires { AreFields W.refs_at words.now self.now.remembered.sources }
        ensures { IfOk result (λ v. v.items ≡ targets_of W.refs_at words.now heap.now self.now.remembered.sources) }
    {
        match &self.form {
            Form::Bare(_) => Ok(Vec::new(alloc)),
            Form::Full(noted) => noted.get().remembered.targets(alloc, words, heap),
        }
    }

    /// Updates each source that still holds an old address to the new one, and leaves the others unchanged. The
    /// relocation list is sorted by the old addresses.
    pub fn rewrite<W: Words>(&self, words: &mut W, moved: &[(Addr, Addr)])
        requires fields { AreFields W.refs_at words.old self.now.remembered.sources }
        requires order { AreAscending moved.now }
        requires places { ArePlaces moved.now }
        ensures led { words.new ≡ fold (redirected W.refs_at W.with_ref_at moved.now) words.old self.now.remembered.sources }
        ensures once { StandOnce self.now.remembered.sources }
    {
        match &self.form {
            Form::Bare(_) => {}
            Form::Full(noted) => noted.get().remembered.rewrite(words, moved),
        }
    }

    /// Its remembered fields, and the block that held it. Without a block it has neither fields nor capacity.
    pub fn into_parts(self) -> (Remembered, Option<BoxedSlot<Noted>>)
        ensures remembered { result.0 ≡ self.remembered }
        ensures bare_noted { IfNone result.1 (result.0 ≡ notes_in None) }
    {
        let SetOf { alloc, form } = self;
        match form {
            Form::Bare(_) => (Remembered::new(alloc), None),
            Form::Full(noted) => {
                let mut block = noted;
                let noted = block.replace(nothing(alloc));
                (noted.remembered, Some(block))
            }
        }
    }

    /// The set of a heap that keeps no references, with these remembered fields; it has a block if there are any. It
    /// doesn't allocate.
    pub fn remembering(
        alloc: Global,
        remembered: Remembered,
        block: Option<BoxedSlot<Noted>>,
    ) -> SetOf
        requires { IfNone block (remembered.sources ≡ []) }
        ensures { content_of result ≡ record { sources = remembered.sources; kept = []; keeps = false } }
    {
        match block {
            Some(block) => set_in(alloc, remembered, block),
            None => SetOf::new(alloc),
        }
    }
}
