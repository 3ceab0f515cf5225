// The table of a remembered set: each down-pointer's source once, in the order in which they were noted.

ghost use Rattle.std.specs.Prelude.{◌≡◌, ℕ, ◌+◌, ◌-◌, ◌<◌, ◌≤◌, [], ◌++◌, filter, fold, IfOk, OnOk, length, nat_eq, not, vec_capacity, vec_len};
ghost use Rattle.std.specs.HashSet.{contains, hash_set_len, spare};
ghost use Rattle.remembered_set.specs.declared.remembered.RefField.{RefField};
ghost use Rattle.remembered_set.specs.Sources.{has_chunk, has_source, lifted, with_noted_source, same_source, KnowsJust, StandOnce};
ghost use Rattle.remembered_set.specs.Moved.{into_by, redirected, targets_of, AreFields, AreAscending, ArePlaces};

use crate::moved::new_of;
use crate::remembered::RefField;
use object_layout::{Addr, Chunk, Words};
use std::alloc::{AllocError, Global};
use std::collections::HashSet;
use std::marker::Model;

/// The sources of a heap, in a list and in a hash table.
pub struct FieldTable {
    sources: Vec<RefField>,
    known: HashSet<RefField>,
    numbers: HashSet<u32>,
}

impl Drop for FieldTable {
    fn drop(self) {
        let FieldTable {
            sources: _,
            known: _,
            numbers: _,
        } = self;
    }
}

impl Model for FieldTable {
    ghost use Rattle.std.specs.Prelude.{◌+◌, ◌-◌, vec_capacity, vec_len};
    ghost use Rattle.std.specs.HashSet.{contains, hash_set_len, spare};
    ghost use Rattle.remembered_set.specs.Sources.{same_source, KnowsJust, RememberedValue};

    ghost Value = { RememberedValue };

    ghost view = { λ r. record { sources = r.sources.items; slots = vec_capacity r.sources - vec_len r.sources; spare = spare r.known; numbers = hash_set_len r.numbers + spare r.numbers } };

    ghost invariant = { λ r. KnowsJust r.sources.items (contains same_source r.known) };
}

impl FieldTable {
    /// An empty set.
    pub fn new(alloc: Global) -> FieldTable
        ensures { result.sources ≡ [] }
    {
        FieldTable {
            sources: Vec::new(alloc),
            known: HashSet::new(alloc),
            numbers: HashSet::new(alloc),
        }
    }

    /// The sources in the order in which they were noted.
    pub fn sources(&self) -> &[RefField]
        ensures sources { result.now ≡ self.now.sources }
        ensures once { StandOnce self.now.sources }
    {
        &self.sources
    }

    /// Reserves capacity for `sources` more sources, and for a lift to a heap of `chunks` chunks.
    pub fn make_room(&mut self, sources: u32, chunks: u32) -> Result<(), AllocError>
        ensures kept { self.new.sources ≡ self.old.sources }
        ensures slots { OnOk result (sources ≤ self.new.slots) }
        ensures spare { OnOk result (sources ≤ self.new.spare) }
        ensures numbers { OnOk result (chunks ≤ self.new.numbers) }
    {
        self.sources.reserve(sources as usize)?;
        self.known.reserve(sources as usize)?;
        self.numbers.reserve(chunks as usize)
    }

    /// Notes a source, unless it is there already. It doesn't allocate.
    pub fn note_spare(&mut self, source: RefField)
        requires slots { 0 < self.old.slots }
        requires spare { 0 < self.old.spare }
        ensures noted { self.new.sources ≡ with_noted_source self.old.sources source }
        ensures slots { self.old.slots ≤ self.new.slots + 1 }
        ensures spare { self.old.spare ≤ self.new.spare + 1 }
    {
        note_in(&mut self.sources, &mut self.known, source);
    }

    /// What the sources hold now, if it points into these chunks: the addresses in the order of the sources. Without
    /// sources it looks at no chunk.
    pub fn targets<W: Words>(
        &self,
        alloc: Global,
        words: &W,
        heap: &[Chunk],
    ) -> Result<Vec<Addr>, AllocError>
        requires { AreFields W.refs_at words.now self.now.sources }
        ensures { IfOk result (λ v. v.items ≡ targets_of W.refs_at words.now heap.now self.now.sources) }
    {
        if self.sources.is_empty() {
            return Ok(Vec::new(alloc));
        }
        let mut numbers = HashSet::new(alloc);
        numbers.reserve(heap.len())?;
        number_chunks(&mut numbers, heap);
        let mut targets = Vec::new(alloc);
        for source in &self.sources {
            let held = words.ref_field(source.object, source.field);
            push_target(&mut targets, held, &numbers)?;
        }
        Ok(targets)
    }

    /// Updates each source that still holds an old address to the new one, and leaves the others unchanged. The
    /// relocation list is sorted by the old addresses.
    pub fn rewrite<W: Words>(&self, words: &mut W, moved: &[(Addr, Addr)])
        requires fields { AreFields W.refs_at words.old self.now.sources }
        requires order { AreAscending moved.now }
        requires places { ArePlaces moved.now }
        ensures led { words.new ≡ fold (redirected W.refs_at W.with_ref_at moved.now) words.old self.now.sources }
        ensures once { StandOnce self.now.sources }
    {
        for source in &self.sources {
            redirect(words, *source, moved);
        }
    }

    /// Notes the sources of another set, except those whose object is in one of these chunks, such as those of a heap
    /// into which the other is merged. It doesn't allocate.
    pub fn lift(&mut self, from: &[RefField], parent: &[Chunk])
        requires slots { length from.now ≤ self.old.slots }
        requires spare { length from.now ≤ self.old.spare }
        requires numbers { length parent.now ≤ self.old.numbers }
        ensures lifted { self.new.sources ≡ lifted self.old.sources from.now parent.now }
        ensures slots { self.old.slots ≤ self.new.slots + length from.now }
        ensures spare { self.old.spare ≤ self.new.spare + length from.now }
        ensures numbers { self.old.numbers ≤ self.new.numbers }
    {
        number_chunks(&mut self.numbers, parent);
        note_all(&mut self.sources, &mut self.known, &self.numbers, from);
    }
}

// Adds a reference to a list, if it points into a chunk of one of these numbers.
fn push_target(
    targets: &mut Vec<Addr>,
    held: Option<Addr>,
    numbers: &HashSet<u32>,
) -> Result<(), AllocError>
    ensures { OnOk result (targets.new.items ≡ targets.old.items ++ into_by (contains nat_eq numbers.now) held) }
{
    if let Some(target) = held {
        if numbers.contains(&target.chunk) {
            targets.push(target)?;
        }
    }
    Ok(())
}

// Notes a source in a list and its table, unless it is there already.
fn note_in(sources: &mut Vec<RefField>, known: &mut HashSet<RefField>, source: RefField)
    requires slots { vec_len sources.old < vec_capacity sources.old }
    requires spare { 0 < spare known.old }
    requires kept { KnowsJust sources.old.items (contains same_source known.old) }
    ensures noted { sources.new.items ≡ with_noted_source sources.old.items source }
    ensures known { (s : RefField) → contains same_source known.new s ≡ has_source sources.new.items s }
    ensures once { StandOnce sources.new.items }
    ensures slots { vec_capacity sources.old - vec_len sources.old ≤ vec_capacity sources.new - vec_len sources.new + 1 }
    ensures spare { spare known.old ≤ spare known.new + 1 }
{
    if let Ok(true) = known.insert(source) {
        sources.push_reserved(source);
    }
}

// Notes those of these sources whose object isn't in a chunk of one of these numbers.
fn note_all(
    sources: &mut Vec<RefField>,
    known: &mut HashSet<RefField>,
    numbers: &HashSet<u32>,
    from: &[RefField],
)
    requires slots { length from.now ≤ vec_capacity sources.old - vec_len sources.old }
    requires spare { length from.now ≤ spare known.old }
    requires kept { KnowsJust sources.old.items (contains same_source known.old) }
    ensures noted { sources.new.items ≡ fold with_noted_source sources.old.items (filter (λ s. not (contains nat_eq numbers.now s.object.chunk)) from.now) }
    ensures kept { KnowsJust sources.new.items (contains same_source known.new) }
    ensures slots { vec_capacity sources.old - vec_len sources.old ≤ vec_capacity sources.new - vec_len sources.new + length from.now }
    ensures spare { spare known.old ≤ spare known.new + length from.now }
{
    for source in from {
        if !numbers.contains(&source.object.chunk) {
            note_in(sources, known, *source);
        }
    }
}

// Fills a set with the numbers of these chunks.
fn number_chunks(numbers: &mut HashSet<u32>, chunks: &[Chunk])
    requires { length chunks.now ≤ hash_set_len numbers.old + spare numbers.old }
    ensures known { (number : ℕ) → contains nat_eq numbers.new number ≡ has_chunk chunks.now number }
    ensures room { hash_set_len numbers.old + spare numbers.old ≤ hash_set_len numbers.new + spare numbers.new }
{
    numbers.clear();
    for chunk in chunks {
        let number = chunk.number();
        if !numbers.contains(&number) {
            let _ = numbers.insert(number);
        }
    }
}

// Updates a source that still holds an old address to the new one.
fn redirect<W: Words>(words: &mut W, source: RefField, moved: &[(Addr, Addr)])
    requires field { source.field < length (W.refs_at words.old source.object) }
    requires order { AreAscending moved.now }
    requires places { ArePlaces moved.now }
    ensures { words.new ≡ redirected W.refs_at W.with_ref_at moved.now words.old source }
{
    let Some(old) = words.ref_field(source.object, source.field) else {
        return;
    };
    let Some(new) = new_of(moved, old) else {
        return;
    };
    words.set_ref_field(source.object, source.field, Some(new));
}
