// A chunk, and its objects one after another.

ghost use Rattle.std.specs.Prelude.{◌≡◌, ◌+◌, ◌*◌, ◌^◌, ◌<◌, ◌≤◌, ◌↔◌, [], ◌∷◌, ◌++◌, length, take, drop, replicate, All, slice_get, slice_index, slice_index_or, IfOk, IsTrue, Some};
ghost use Rattle.object_layout.specs.Cell.{header_of, size_of, new_cell, BeginsInFirstUnit, IsBorn, moved_to, with_ref, with_refs, cell_with_int, with_ints, with_mark, filled_cell, frozen, Born, Moved, Hole, IsCell, chunk_words};
ghost use Rattle.object_layout.specs.Chunks.{with_cell};
ghost use Rattle.object_layout.specs.Layout.{words_of_cell};
ghost use Rattle.object_layout.specs.Piece.{is_frozen};
ghost use Rattle.object_layout.specs.Place.{words_in, IsCellAt, IsObjectAt, cell_at, object_at, put_cell, cells_from};

use crate::word::{
    Addr, Birth, GONE, Header, MUTABLE, birth_from_word, birth_to_word, header_from_word,
    header_to_word, is_gone_word, ref_from_word, ref_to_word,
};
use chunk_sizes::CHUNK_WORDS;
use std::alloc::{AllocError, Global};
use std::marker::Model;

/// A numbered chunk of words. Objects follow one another from its first word on; a swept object leaves a hole of its
/// words.
///
/// A chunk of one unit has 1,024 words. A large object has a chunk of its own, of as many units as it needs, and is at
/// offset 0 there.
pub struct Chunk {
    number: u32,
    words: Vec<u64>,
    used: u32,
}

impl Drop for Chunk {
    fn drop(self) {
        let Chunk {
            number: _,
            words: _,
            used: _,
        } = self;
    }
}

impl Model for Chunk {
    ghost use Rattle.std.specs.Prelude.{length};
    ghost use Rattle.object_layout.specs.ChunkValue.{ChunkValue, HoldsCells, cells_in};

    ghost Value = { ChunkValue };

    ghost view = { λ c. record { number = c.number; size = length c.words.items; cells = cells_in c.words.items c.used } };

    ghost invariant = { λ c. HoldsCells c.words.items c.used (cells_in c.words.items c.used) };
}

impl Chunk {
    /// An empty chunk of `units` units of 1,024 words.
    pub fn new(alloc: Global, number: u32, units: u32) -> Result<Chunk, AllocError>
        requires { units < 2 ^ 22 }
        ensures { IfOk result (λ c. c ≡ record { number = number; size = chunk_words * units; cells = [] }) }
    {
        let words = vec![in alloc; 0; CHUNK_WORDS as usize * units as usize]?;
        Ok(Chunk {
            number,
            words,
            used: 0,
        })
    }

    /// Its number, which addresses contain.
    pub fn number(&self) -> u32
        ensures { result ≡ self.now.number }
    {
        self.number
    }

    /// The number of words.
    pub fn size(&self) -> u32
        ensures { result ≡ self.now.size }
    {
        self.words.len() as u32
    }

    /// How many words its objects and holes take: where the next object begins.
    pub fn used(&self) -> u32
        ensures words { result ≡ words_in self.now.cells }
        ensures within { result ≤ self.now.size }
        ensures begins { 0 < result → IsCellAt self.now.cells 0 }
        ensures ends { cells_from self.now.cells result ≡ [] }
    {
        self.used
    }

    /// Changes its number.
    pub fn renumber(&mut self, number: u32)
        ensures { self.new ≡ record self.old { number = number } }
    {
        self.number = number;
    }

    /// A copy of the chunk with only the words that its objects and holes take.
    pub(crate) fn copy(&self, alloc: Global) -> Result<Chunk, AllocError>
        ensures { IfOk result (λ c. c ≡ record self.now { size = words_in self.now.cells }) }
    {
        let words = Vec::from_slice(alloc, &self.words[..self.used as usize])?;
        Ok(Chunk {
            number: self.number,
            words,
            used: self.used,
        })
    }

    /// Drops its objects and holes.
    pub fn clear(&mut self)
        ensures { self.new ≡ record self.old { cells = [] } }
    {
        self.used = 0;
    }
}

// Writes two words and then zeros, from a position on.
fn lay(words: &mut [u64], at: usize, first: u64, second: u64, zeros: usize)
    requires { at + (2 + zeros) ≤ length words.old }
    ensures { take (at + (2 + zeros)) words.new ≡ take at words.old ++ first ∷ (second ∷ replicate zeros 0) }
{
    words[at] = first;
    words[at + 1] = second;
    for i in at + 2..at + (2 + zeros) {
        words[i] = 0;
    }
}

/// Writes an object after the others, with its references nil and its numbers 0.
pub fn write_new(chunk: &mut Chunk, at: u32, header: Header, birth: Birth)
    requires behind { at ≡ words_in chunk.old.cells }
    requires refs { header.nrefs < 2 ^ 20 }
    requires ints { header.nints < 2 ^ 20 }
    requires room { at + (2 + (header.nrefs + header.nints)) ≤ chunk.old.size }
    ensures { chunk.new ≡ record chunk.old { cells = chunk.old.cells ++ new_cell header birth ∷ [] } }
{
    let fields = header.nrefs + header.nints;
    lay(
        &mut chunk.words,
        at as usize,
        header_to_word(header),
        birth_to_word(birth),
        fields as usize,
    );
    chunk.used = at + (2 + fields);
}

// The k-th of a list of fields.
fn item<T: Copy>(fields: &[T], k: u32) -> T
    requires { k < length fields.now }
    ensures { result ≡ slice_index_or fields.now k result }
{
    fields[k as usize]
}

// Writes all references of an object.
fn fill_refs(chunk: &mut Chunk, at: u32, refs: &[Option<Addr>])
    requires object { IsObjectAt chunk.old.cells at }
    requires fields { length refs.now ≡ length (cell_at chunk.old.cells at).refs }
    requires few { length refs.now < 2 ^ 20 }
    requires places { All BeginsInFirstUnit refs.now }
    ensures { chunk.new ≡ with_cell chunk.old at (with_refs (cell_at chunk.old.cells at) refs.now) }
{
    for k in 0..refs.len() as u32 {
        let value = item(refs, k);
        set_ref(chunk, at, k, value);
    }
}

// Writes all numbers of an object.
fn fill_ints(chunk: &mut Chunk, at: u32, ints: &[i64])
    requires object { IsObjectAt chunk.old.cells at }
    requires fields { length ints.now ≡ length (cell_at chunk.old.cells at).ints }
    requires few { length ints.now < 2 ^ 20 }
    ensures { chunk.new ≡ with_cell chunk.old at (with_ints (cell_at chunk.old.cells at) ints.now) }
{
    for k in 0..ints.len() as u32 {
        let value = item(ints, k);
        set_int(chunk, at, k, value);
    }
}

/// Writes an object with these fields after the others.
pub fn write_filled(
    chunk: &mut Chunk,
    at: u32,
    header: Header,
    birth: Birth,
    refs: &[Option<Addr>],
    ints: &[i64],
)
    requires behind { at ≡ words_in chunk.old.cells }
    requires refs { header.nrefs ≡ length refs.now }
    requires ints { header.nints ≡ length ints.now }
    requires few_refs { header.nrefs < 2 ^ 20 }
    requires few_ints { header.nints < 2 ^ 20 }
    requires places { All BeginsInFirstUnit refs.now }
    requires room { at + (2 + (header.nrefs + header.nints)) ≤ chunk.old.size }
    ensures { chunk.new ≡ record chunk.old { cells = chunk.old.cells ++ filled_cell header birth refs.now ints.now ∷ [] } }
{
    write_new(chunk, at, header, birth);
    fill_refs(chunk, at, refs);
    fill_ints(chunk, at, ints);
}

// The k-th word of an object or a hole.
fn word_at(chunk: &Chunk, at: u32, k: usize) -> u64
    requires cell { IsCellAt chunk.now.cells at }
    requires within { k < size_of (cell_at chunk.now.cells at) }
    ensures word { result ≡ slice_index (words_of_cell (cell_at chunk.now.cells at)) k }
    ensures cell { IsCell (cell_at chunk.now.cells at) }
    ensures ends { at + size_of (cell_at chunk.now.cells at) ≤ words_in chunk.now.cells }
    ensures small { words_in chunk.now.cells < 2 ^ 32 }
{
    chunk.words[at as usize + k]
}

// Copies words of one list to a position of another.
fn copy_words(from: &[u64], at: usize, to: &mut [u64], behind: usize, count: usize)
    requires from { at + count ≤ length from.now }
    requires to { behind + count ≤ length to.old }
    ensures { take (behind + count) to.new ≡ take behind to.old ++ take count (drop at from.now) }
{
    to[behind..behind + count].copy_from_slice(&from[at..at + count]);
}

/// Writes a copy of an object of another chunk after the others, and returns its offset.
pub fn copy_behind(from: &Chunk, at: u32, to: &mut Chunk) -> u32
    requires object { IsObjectAt from.now.cells at }
    requires room { words_in to.old.cells + size_of (object_at from.now.cells at) ≤ to.old.size }
    ensures place { result ≡ words_in to.old.cells }
    ensures copied { to.new ≡ record to.old { cells = to.old.cells ++ object_at from.now.cells at ∷ [] } }
{
    let count = next_at(from, at) - at;
    let behind = to.used;
    copy_words(
        &from.words,
        at as usize,
        &mut to.words,
        behind as usize,
        count as usize,
    );
    to.used = behind + count;
    behind
}

/// Where the next object or hole begins, or the used words end.
pub fn next_at(chunk: &Chunk, at: u32) -> u32
    requires { IsCellAt chunk.now.cells at }
    ensures next { result ≡ at + size_of (cell_at chunk.now.cells at) }
    ensures within { result ≤ words_in chunk.now.cells }
    ensures begins { result < words_in chunk.now.cells → IsCellAt chunk.now.cells result }
    ensures rest { cells_from chunk.now.cells at ≡ cell_at chunk.now.cells at ∷ cells_from chunk.now.cells result }
{
    let header = header_from_word(word_at(chunk, at, 0));
    at + (2 + (header.nrefs + header.nints))
}

/// Whether an object begins there, rather than a hole.
pub fn is_object_at(chunk: &Chunk, at: u32) -> bool
    requires { IsCellAt chunk.now.cells at }
    ensures { IsTrue result ↔ IsObjectAt chunk.now.cells at }
{
    !is_gone_word(word_at(chunk, at, 0)) || word_at(chunk, at, 1) != 0
}

/// Whether an object with its birth name begins there: neither a hole nor moved.
pub fn is_born_at(chunk: &Chunk, at: u32) -> bool
    requires { IsCellAt chunk.now.cells at }
    ensures { IsTrue result ↔ IsBorn (cell_at chunk.now.cells at).mark }
{
    !is_gone_word(word_at(chunk, at, 0))
}

/// Whether an immutable object with its birth name begins there.
pub(crate) fn is_frozen_at(chunk: &Chunk, at: u32) -> bool
    requires { IsCellAt chunk.now.cells at }
    ensures { result ≡ is_frozen (cell_at chunk.now.cells at) }
{
    let word = word_at(chunk, at, 0);
    !is_gone_word(word) && !header_from_word(word).mutable
}

/// The kind of the object.
pub fn header_at(chunk: &Chunk, at: u32) -> Header
    requires { IsObjectAt chunk.now.cells at }
    ensures kind { result ≡ header_of (object_at chunk.now.cells at) }
    ensures refs { result.nrefs < 2 ^ 20 }
    ensures ints { result.nints < 2 ^ 20 }
{
    header_from_word(word_at(chunk, at, 0))
}

/// The birth name of an object that wasn't moved.
pub fn birth_at(chunk: &Chunk, at: u32) -> Birth
    requires { IsBorn (cell_at chunk.now.cells at).mark }
    ensures { (cell_at chunk.now.cells at).mark ≡ Born result }
{
    birth_from_word(word_at(chunk, at, 1))
}

/// Gives an object its birth name.
pub fn set_birth(chunk: &mut Chunk, at: u32, birth: Birth)
    requires { IsObjectAt chunk.old.cells at }
    ensures { chunk.new ≡ record chunk.old { cells = put_cell chunk.old.cells at (with_mark (cell_at chunk.old.cells at) (Born birth)) } }
{
    let header = header_at(chunk, at);
    chunk.words[at as usize] = header_to_word(header);
    chunk.words[at as usize + 1] = birth_to_word(birth);
}

/// A reference of the object: None for nil.
pub fn ref_at(chunk: &Chunk, at: u32, field: u32) -> Option<Addr>
    requires { field < length (object_at chunk.now.cells at).refs }
    ensures value { slice_get (object_at chunk.now.cells at).refs field ≡ Some result }
    ensures place { BeginsInFirstUnit result }
{
    ref_from_word(word_at(chunk, at, 2 + field as usize))
}

/// Writes a reference of the object.
pub fn set_ref(chunk: &mut Chunk, at: u32, field: u32, value: Option<Addr>)
    requires field { field < length (object_at chunk.old.cells at).refs }
    requires place { BeginsInFirstUnit value }
    ensures { chunk.new ≡ record chunk.old { cells = put_cell chunk.old.cells at (with_ref (cell_at chunk.old.cells at) field value) } }
{
    chunk.words[at as usize + (2 + field as usize)] = ref_to_word(value);
}

/// A number of the object.
pub fn int_at(chunk: &Chunk, at: u32, field: u32) -> i64
    requires { field < length (object_at chunk.now.cells at).ints }
    ensures { slice_get (object_at chunk.now.cells at).ints field ≡ Some result }
{
    let nrefs = header_at(chunk, at).nrefs;
    word_at(chunk, at, 2 + (nrefs as usize + field as usize)).cast_signed()
}

/// Writes a number of the object.
pub fn set_int(chunk: &mut Chunk, at: u32, field: u32, value: i64)
    requires { field < length (object_at chunk.old.cells at).ints }
    ensures { chunk.new ≡ record chunk.old { cells = put_cell chunk.old.cells at (cell_with_int (cell_at chunk.old.cells at) field value) } }
{
    let nrefs = header_at(chunk, at).nrefs;
    set_int_behind(chunk, at, nrefs, field, value);
}

/// Like `set_int`, if the caller knows how many references precede the numbers.
pub fn set_int_behind(chunk: &mut Chunk, at: u32, nrefs: u32, field: u32, value: i64)
    requires refs { nrefs ≡ length (object_at chunk.old.cells at).refs }
    requires field { field < length (object_at chunk.old.cells at).ints }
    ensures { chunk.new ≡ record chunk.old { cells = put_cell chunk.old.cells at (cell_with_int (cell_at chunk.old.cells at) field value) } }
{
    chunk.words[at as usize + (2 + (nrefs as usize + field as usize))] = value.cast_unsigned();
}

/// Makes the object immutable, and changes nothing else of it.
pub fn freeze(chunk: &mut Chunk, at: u32)
    requires { IsObjectAt chunk.old.cells at }
    ensures { chunk.new ≡ record chunk.old { cells = put_cell chunk.old.cells at (frozen (cell_at chunk.old.cells at)) } }
{
    chunk.words[at as usize] &= !MUTABLE;
}

/// Records the address that the object was moved to, in place of its birth name.
pub fn forward(chunk: &mut Chunk, at: u32, to: Addr)
    requires object { IsObjectAt chunk.old.cells at }
    requires place { BeginsInFirstUnit (Some to) }
    ensures { chunk.new ≡ record chunk.old { cells = put_cell chunk.old.cells at (with_mark (cell_at chunk.old.cells at) (Moved to)) } }
{
    chunk.words[at as usize] |= GONE;
    chunk.words[at as usize + 1] = ref_to_word(Some(to));
}

/// The address that the object was moved to; None if it wasn't moved.
pub fn forwarded_at(chunk: &Chunk, at: u32) -> Option<Addr>
    requires { IsObjectAt chunk.now.cells at }
    ensures value { result ≡ moved_to (cell_at chunk.now.cells at).mark }
    ensures place { BeginsInFirstUnit result }
{
    if is_gone_word(word_at(chunk, at, 0)) {
        ref_from_word(word_at(chunk, at, 1))
    } else {
        None
    }
}

/// Drops the object, which leaves a hole of its words.
pub fn drop_at(chunk: &mut Chunk, at: u32)
    requires { IsObjectAt chunk.old.cells at }
    ensures { chunk.new ≡ record chunk.old { cells = put_cell chunk.old.cells at (with_mark (cell_at chunk.old.cells at) Hole) } }
{
    chunk.words[at as usize] |= GONE;
    chunk.words[at as usize + 1] = 0;
}
