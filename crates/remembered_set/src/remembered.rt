// A remembered set, which allocates nothing until it holds something.

ghost use Rattle.std.specs.Prelude.{◌≡◌, ◌+◌, ◌<◌, ◌≤◌, [], fold, IfOk, None, OnErr, OnOk, length};
ghost use Rattle.remembered_set.specs.Sources.{lifted, with_noted_source, notes_in, StandOnce};
ghost use Rattle.remembered_set.specs.Moved.{redirected, targets_of, AreFields, AreAscending, ArePlaces};

use crate::table::FieldTable;
use boxed::BoxedSlot;
use object_layout::{Addr, Chunk, Words};
use std::alloc::{AllocError, Global};
use std::marker::Model;
use std::mem;

/// A reference field of an object: the object's address, and the index of the reference.
#[derive(Clone, Copy, PartialEq, Eq, Hash)]
pub struct RefField {
    pub object: Addr,
    pub field: u32,
}

/// The fields that were seen to point down into a heap. A source stays when its field is overwritten; its value is read
/// when it is needed.
pub struct Remembered {
    alloc: Global,
    // None if it is empty and has no capacity.
    table: Option<BoxedSlot<FieldTable>>,
}

impl Drop for Remembered {
    fn drop(self) {
        let Remembered { alloc: _, table: _ } = self;
    }
}

impl Model for Remembered {
    ghost use Rattle.remembered_set.specs.Sources.{notes_in, RememberedValue};

    ghost Value = { RememberedValue };

    ghost view = { λ r. notes_in r.table };
}

// The existing table, or a new one.
fn opened(
    alloc: Global,
    table: Option<BoxedSlot<FieldTable>>,
) -> Result<BoxedSlot<FieldTable>, AllocError>
    ensures same { IfOk result (λ t. t.sources ≡ (notes_in table).sources) }
    ensures none { OnErr result (table ≡ None) }
{
    match table {
        Some(table) => Ok(table),
        None => Ok(BoxedSlot::new(alloc, FieldTable::new(alloc))?),
    }
}

impl Remembered {
    /// An empty set without capacity.
    pub fn new(alloc: Global) -> Remembered
        ensures { result ≡ record { sources = []; slots = 0; spare = 0; numbers = 0 } }
    {
        Remembered { alloc, table: None }
    }

    /// The sources in the order in which they were noted.
    pub fn sources(&self) -> &[RefField]
        ensures sources { result.now ≡ self.now.sources }
        ensures once { StandOnce self.now.sources }
    {
        match &self.table {
            Some(table) => table.get().sources(),
            None => &[],
        }
    }

    /// Reserves capacity for `sources` more sources, and for a lift to a heap of `chunks` chunks.
    pub fn make_room(&mut self, sources: u32, chunks: u32) -> Result<(), AllocError>
        ensures kept { self.new.sources ≡ self.old.sources }
        ensures slots { OnOk result (sources ≤ self.new.slots) }
        ensures spare { OnOk result (sources ≤ self.new.spare) }
        ensures numbers { OnOk result (chunks ≤ self.new.numbers) }
    {
        if sources == 0 && chunks == 0 {
            return Ok(());
        }
        let mut table = opened(self.alloc, mem::replace(&mut self.table, None))?;
        let made = table.get_mut().make_room(sources, chunks);
        self.table = Some(table);
        made
    }

    /// Notes a source, unless it is there already.
    pub fn note(&mut self, object: Addr, field: u32) -> Result<(), AllocError>
        ensures ok { OnOk result (self.new.sources ≡ with_noted_source self.old.sources (record { object = object; field = field })) }
        ensures err { OnErr result (self.new.sources ≡ self.old.sources) }
    {
        self.make_room(1, 0)?;
        self.note_spare(RefField { object, field });
        Ok(())
    }

    /// Like `note`, but uses reserved capacity and doesn't allocate.
    pub fn note_spare(&mut self, source: RefField)
        requires slots { 0 < self.old.slots }
        requires spare { 0 < self.old.spare }
        ensures noted { self.new.sources ≡ with_noted_source self.old.sources source }
        ensures slots { self.old.slots ≤ self.new.slots + 1 }
        ensures spare { self.old.spare ≤ self.new.spare + 1 }
    {
        let Some(mut table) = mem::replace(&mut self.table, None) else {
            unreachable!()
        };
        table.get_mut().note_spare(source);
        self.table = Some(table);
    }

    /// What the sources hold now, if it points into these chunks: the addresses in the order of the sources. Without
    /// sources it looks at no chunk.
    pub fn targets<W: Words>(
        &self,
        alloc: Global,
        words: &W,
        heap: &[Chunk],
    ) -> Result<Vec<Addr>, AllocError>
        requires { AreFields W.refs_at words.now self.now.sources }
        ensures { IfOk result (λ v. v.items ≡ targets_of W.refs_at words.now heap.now self.now.sources) }
    {
        match &self.table {
            Some(table) => table.get().targets(alloc, words, heap),
            None => Ok(Vec::new(alloc)),
        }
    }

    /// Updates each source that still holds an old address to the new one, and leaves the others unchanged. The
    /// relocation list is sorted by the old addresses.
    pub fn rewrite<W: Words>(&self, words: &mut W, moved: &[(Addr, Addr)])
        requires fields { AreFields W.refs_at words.old self.now.sources }
        requires order { AreAscending moved.now }
        requires places { ArePlaces moved.now }
        ensures led { words.new ≡ fold (redirected W.refs_at W.with_ref_at moved.now) words.old self.now.sources }
        ensures once { StandOnce self.now.sources }
    {
        if let Some(table) = &self.table {
            table.get().rewrite(words, moved);
        }
    }

    /// Notes the sources of another set, except those whose object is in one of these chunks, such as those of a heap
    /// into which the other is merged. It doesn't allocate.
    pub fn lift(&mut self, from: Remembered, parent: &[Chunk])
        requires slots { length from.sources ≤ self.old.slots }
        requires spare { length from.sources ≤ self.old.spare }
        requires numbers { length parent.now ≤ self.old.numbers }
        ensures lifted { self.new.sources ≡ lifted self.old.sources from.sources parent.now }
        ensures slots { self.old.slots ≤ self.new.slots + length from.sources }
        ensures spare { self.old.spare ≤ self.new.spare + length from.sources }
        ensures numbers { self.old.numbers ≤ self.new.numbers }
    {
        let Some(mut table) = mem::replace(&mut self.table, None) else {
            return;
        };
        table.get_mut().lift(from.sources(), parent);
        self.table = Some(table);
    }
}
