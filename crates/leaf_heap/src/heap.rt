// A leaf heap: the chunks of a task, between collections.

ghost use Rattle.std.specs.Prelude.{◌≡◌, ◌+◌, ◌^◌, ◌<◌, ◌≤◌, [], is_some, length, All, option_map, OnOk, OnErr, IfErr, IfOk, IsOk, None};
ghost use Rattle.object_layout.specs.Cell.{filled_cell, size_of, new_cell, BeginsInFirstUnit, chunk_words};
ghost use Rattle.object_layout.specs.Chunks.{chunk_at, held_words, next_address, object_count, small_words};
ghost use Rattle.leaf_heap.specs.LeafHeapValue.{added, saturating_words, exchanged, merged, with_object_placed, place_for, room_of, with_places, HaveDistinctNumbers, AllBeginInFirstUnit, CellsFitInChunks, IsCurrent, IsFresh, IsReserved, IsSettled};

use super::contents::New;
use super::space::Space;
use object_layout::{Addr, Chunk};
use std::alloc::{AllocError, AllocFailed, Global};
use std::marker::Model;
use std::mem;

/// The chunks of a task. No object in them was moved, a large one, of more than 1,024 words, has its chunk to itself,
/// and the numbers of the chunks are distinct.
pub struct LeafHeap {
    pub(crate) space: Space,
}

impl Drop for LeafHeap {
    fn drop(self) {
        let LeafHeap { space: _ } = self;
    }
}

impl Model for LeafHeap {
    ghost use Rattle.leaf_heap.specs.LeafHeapValue.{LeafHeapValue, IsSettled};

    ghost Value = { LeafHeapValue };

    ghost view = { λ h. h.space };

    ghost invariant = { λ h. IsSettled h.space.chunks };
}

impl LeafHeap {
    /// A heap without chunks.
    pub fn new(alloc: Global) -> LeafHeap
        ensures { result ≡ record { chunks = []; current = None; reserved = None; since = 0; slots = result.slots; spare = result.spare } }
    {
        LeafHeap {
            space: Space::new(alloc),
        }
    }

    /// The chunks in the order in which they were added: small ones, those of large objects, and the reserved one.
    pub fn chunks(&self) -> &[Chunk]
        ensures chunks { result.now ≡ self.now.chunks }
        ensures settled { IsSettled self.now.chunks }
        ensures within { CellsFitInChunks self.now.chunks }
        ensures near { AllBeginInFirstUnit self.now.chunks }
    {
        self.space.lie_within();
        self.space.chunks()
    }

    /// The position of the small chunk that is being filled, if any.
    pub fn current(&self) -> Option<usize>
        ensures place { result ≡ self.now.current }
        ensures small { IsCurrent self.now.chunks result }
    {
        self.space.current()
    }

    /// Whether `place` would place an object of `words` words.
    #[inline(always)]
    pub fn has_place(&self, words: u32) -> bool
        ensures { result ≡ is_some (place_for self.now words) }
    {
        self.space.has_place(words)
    }

    /// The position of the chunk that is reserved for a large object, if any.
    pub fn reserved(&self) -> Option<usize>
        ensures place { result ≡ self.now.reserved }
        ensures empty { IsReserved self.now.chunks result }
    {
        self.space.reserved()
    }

    /// The words left in the small chunk that is being filled; 0 without one.
    pub fn room(&self) -> u32
        ensures { result ≡ room_of self.now }
    {
        self.space.room()
    }

    /// The words of all objects that were placed since the count was last set to 0.
    pub fn since(&self) -> u64
        ensures { result ≡ self.now.since }
    {
        self.space.since()
    }

    /// The words of all objects in the heap, without holes.
    pub fn words(&self) -> u64
        ensures { result ≡ saturating_words (held_words self.now.chunks) }
    {
        self.space.words()
    }

    /// How many objects are in the heap.
    pub fn objects(&self) -> u64
        ensures { result ≡ saturating_words (object_count self.now.chunks) }
    {
        self.space.objects()
    }

    /// The words of all small objects in the heap.
    pub fn small_words(&self) -> u64
        ensures { result ≡ saturating_words (small_words self.now.chunks) }
    {
        self.space.small_words()
    }

    /// Sets the count of words placed to 0.
    pub fn reset_since(&mut self)
        ensures { self.new ≡ record self.old { since = 0 } }
    {
        self.space.reset_since();
    }

    /// Reserves capacity for `chunks` more chunks, so that they can be added without allocating.
    pub fn make_room(&mut self, chunks: u32) -> Result<(), AllocError>
        ensures kept { self.new ≡ with_places self.old self.new.slots self.new.spare }
        ensures slots { OnOk result (chunks ≤ self.new.slots) }
        ensures spare { OnOk result (chunks ≤ self.new.spare) }
        ensures more_slots { self.old.slots ≤ self.new.slots }
        ensures more_spare { self.old.spare ≤ self.new.spare }
    {
        self.space.make_room(chunks)
    }

    /// Like `make_room`, for chunks that are put in front of the others, as by `merge`.
    pub fn make_room_before(&mut self, chunks: u32) -> Result<(), AllocError>
        ensures kept { self.new ≡ with_places self.old self.new.slots self.new.spare }
        ensures slots { OnOk result (chunks ≤ self.new.slots) }
        ensures spare { OnOk result (chunks ≤ self.new.spare) }
        ensures more_slots { self.old.slots ≤ self.new.slots }
        ensures more_spare { self.old.spare ≤ self.new.spare }
    {
        self.space.make_room_before(chunks)
    }

    /// Prepares what `view` shares of the chunks: copies of those with immutable objects, except of chunks that haven't
    /// changed since the last time. If an allocation fails, what was made stays.
    pub fn settle(&mut self) -> Result<(), AllocError>
        ensures { self.new ≡ self.old }
    {
        self.space.settle()
    }

    /// Adds an empty chunk. A small one is filled from then on; a large one is reserved for a large object of exactly
    /// its units. If an allocation fails, the chunk is returned.
    pub fn add(&mut self, chunk: Chunk) -> Result<(), AllocFailed<Chunk>>
        requires empty { chunk.cells ≡ [] }
        requires size { chunk_words ≤ chunk.size }
        requires fresh { IsFresh self.old.chunks chunk.number }
        ensures ok { OnOk result (self.new ≡ with_places (added self.old chunk) self.new.slots self.new.spare) }
        ensures err { OnErr result (self.new ≡ with_places self.old self.new.slots self.new.spare) }
        ensures back { IfErr result (λ e. e.value ≡ chunk) }
    {
        match self.make_room(1) {
            Ok(()) => {
                self.add_spare(chunk);
                Ok(())
            }
            Err(_) => Err(AllocFailed { value: chunk }),
        }
    }

    /// Like `add`, but uses reserved capacity and cannot fail.
    pub fn add_spare(&mut self, chunk: Chunk)
        requires empty { chunk.cells ≡ [] }
        requires size { chunk_words ≤ chunk.size }
        requires fresh { IsFresh self.old.chunks chunk.number }
        requires slots { 0 < self.old.slots }
        requires spare { 0 < self.old.spare }
        ensures added { self.new ≡ with_places (added self.old chunk) self.new.slots self.new.spare }
        ensures slots { self.old.slots ≡ self.new.slots + 1 }
        ensures spare { self.old.spare ≤ self.new.spare + 1 }
    {
        self.space.add_spare(chunk);
    }

    /// Makes sure that `_objects` objects can be placed by `place_spare` without allocating. An object takes words of
    /// an existing chunk, so there is nothing to do.
    pub fn make_spare(&mut self, _objects: u32) -> Result<(), AllocError>
        ensures kept { self.new ≡ self.old }
        ensures ok { IsOk result }
    {
        Ok(())
    }

    /// Places an object, with its references nil and its numbers 0, and returns its address; None if a small object
    /// doesn't fit in the room, or no reserved chunk has exactly a large object's units.
    pub fn place(&mut self, new: New) -> Result<Option<Addr>, AllocError>
        requires refs { new.header.nrefs < 2 ^ 20 }
        requires ints { new.header.nints < 2 ^ 20 }
        ensures address { let object = new_cell new.header new.birth in result ≡ Ok (option_map (λ i. next_address (chunk_at self.old.chunks i)) (place_for self.old (size_of object))) }
        ensures near { IfOk result BeginsInFirstUnit }
        ensures placed { let object = new_cell new.header new.birth in self.new ≡ with_object_placed self.old (place_for self.old (size_of object)) object }
    {
        Ok(self.place_spare(new))
    }

    /// Like `place`; it doesn't allocate.
    #[inline(always)]
    pub fn place_spare(&mut self, new: New) -> Option<Addr>
        requires refs { new.header.nrefs < 2 ^ 20 }
        requires ints { new.header.nints < 2 ^ 20 }
        ensures address { let object = new_cell new.header new.birth in result ≡ option_map (λ i. next_address (chunk_at self.old.chunks i)) (place_for self.old (size_of object)) }
        ensures near { BeginsInFirstUnit result }
        ensures placed { let object = new_cell new.header new.birth in self.new ≡ with_object_placed self.old (place_for self.old (size_of object)) object }
    {
        self.space.place(new)
    }

    /// Like `place`, for an object with these references and numbers.
    pub fn place_filled(&mut self, new: New, refs: &[Option<Addr>], ints: &[i64]) -> Option<Addr>
        requires refs { new.header.nrefs ≡ length refs.now }
        requires ints { new.header.nints ≡ length ints.now }
        requires few_refs { new.header.nrefs < 2 ^ 20 }
        requires few_ints { new.header.nints < 2 ^ 20 }
        requires places { All BeginsInFirstUnit refs.now }
        ensures address { let object = filled_cell new.header new.birth refs.now ints.now in result ≡ option_map (λ i. next_address (chunk_at self.old.chunks i)) (place_for self.old (size_of object)) }
        ensures near { BeginsInFirstUnit result }
        ensures placed { let object = filled_cell new.header new.birth refs.now ints.now in self.new ≡ with_object_placed self.old (place_for self.old (size_of object)) object }
    {
        self.space.place_filled(new, refs, ints)
    }

    /// Puts the chunks of two other heaps in front of its own, and goes on filling its own chunk. It doesn't allocate.
    pub fn merge(&mut self, left: LeafHeap, right: LeafHeap)
        requires apart { HaveDistinctNumbers (merged self.old left right).chunks }
        requires slots { length left.chunks + length right.chunks ≤ self.old.slots }
        requires spare { length left.chunks + length right.chunks ≤ self.old.spare }
        ensures merged { self.new ≡ with_places (merged self.old left right) self.new.slots self.new.spare }
    {
        let LeafHeap { space: left } = left;
        let LeafHeap { space: right } = right;
        self.space.merge(left, right);
    }

    /// Takes the chunks out, for a collection or a sweep; the heap is left without chunks.
    pub fn open(&mut self) -> Space
        ensures space { result ≡ self.old }
        ensures settled { IsSettled self.old.chunks }
        ensures left { self.new ≡ record (exchanged self.old [] None None) { since = 0; slots = self.new.slots; spare = self.new.spare } }
    {
        self.space.let_pieces_go();
        let none = Space::new(self.space.allocator());
        mem::replace(&mut self.space, none)
    }

    /// Replaces the heap's chunks, which are dropped.
    pub fn close(&mut self, space: Space)
        requires { IsSettled space.chunks }
        ensures { self.new ≡ space }
    {
        self.space = space;
    }
}
