// The chunks of a heap behind a pointer, which a heap that never had one does without.

ghost use Rattle.std.specs.Prelude.{◌≡◌, ◌+◌, ◌^◌, ◌<◌, ◌≤◌, [], is_some, length, option_map, All, IfOk, OnOk, None, Some};
ghost use Rattle.object_layout.specs.Cell.{filled_cell, size_of, new_cell, BeginsInFirstUnit, chunk_words};
ghost use Rattle.object_layout.specs.Chunks.{chunk_at, held_words, next_address, object_count, small_words};
ghost use Rattle.leaf_heap.specs.LeafHeapValue.{added, saturating_words, no_contents, with_object_placed, place_for, room_of, with_places, CellsFitInChunks, IsCurrent, IsFresh, IsReserved, IsSettled};

use super::contents::{Contents, New};
use boxed::BoxedSlot;
use object_layout::{Addr, Chunk};
use std::alloc::{AllocError, Global};
use std::marker::Model;

/// The chunks of a heap, in which objects may be moved: what a collection works on. Small objects go
/// into the last small chunk that was added, one after the other; a large object, of more than 1,024
/// words, goes into a chunk of its own, which is reserved for it first.
///
/// It is moved by moving a pointer. Without chunks it takes no memory, until there is to be room for some.
#[derive(Drop)]
pub struct Space {
    pub(crate) contents: Option<BoxedSlot<Contents>>,
    pub(crate) alloc: Global,
}

impl Model for Space {
    ghost use Rattle.leaf_heap.specs.LeafHeapValue.{LeafHeapValue, contents_value};

    ghost Value = { LeafHeapValue };

    ghost view = { λ s. contents_value s.contents };
}

impl Space {
    /// A heap without chunks.
    pub fn new(alloc: Global) -> Space
        ensures { result ≡ record { chunks = []; current = None; reserved = None; since = 0; slots = result.slots; spare = result.spare } }
    {
        Space {
            contents: None,
            alloc,
        }
    }

    // The allocator of its lists.
    pub(crate) fn allocator(&self) -> Global {
        self.alloc
    }

    /// The chunks in the order in which they were added: small ones, those of large objects, and the reserved one.
    pub fn chunks(&self) -> &[Chunk]
        ensures { result.now ≡ self.now.chunks }
    {
        match &self.contents {
            Some(contents) => contents.get().chunks(),
            None => &[],
        }
    }

    // All words lie inside their chunks.
    pub(crate) fn lie_within(&self)
        ensures { CellsFitInChunks self.now.chunks }
    {
        match &self.contents {
            Some(contents) => contents.get().lie_within(),
            None => {}
        }
    }

    /// The position of the small chunk that is being filled, if any.
    #[inline(always)]
    pub fn current(&self) -> Option<usize>
        ensures place { result ≡ self.now.current }
        ensures small { IsCurrent self.now.chunks result }
    {
        match &self.contents {
            Some(contents) => contents.get().current(),
            None => None,
        }
    }

    /// Whether `place` would place an object of `words` words.
    #[inline(always)]
    pub fn has_place(&self, words: u32) -> bool
        ensures { result ≡ is_some (place_for self.now words) }
    {
        match &self.contents {
            Some(contents) => contents.get().has_place(words),
            None => false,
        }
    }

    /// The position of the chunk that is reserved for a large object, if any.
    pub fn reserved(&self) -> Option<usize>
        ensures place { result ≡ self.now.reserved }
        ensures empty { IsReserved self.now.chunks result }
    {
        match &self.contents {
            Some(contents) => contents.get().reserved(),
            None => None,
        }
    }

    /// The words left in the small chunk that is being filled; 0 without one.
    pub fn room(&self) -> u32
        ensures { result ≡ room_of self.now }
    {
        match &self.contents {
            Some(contents) => contents.get().room(),
            None => 0,
        }
    }

    /// The words of all objects that were placed since the count was last set to 0.
    pub fn since(&self) -> u64
        ensures { result ≡ self.now.since }
    {
        match &self.contents {
            Some(contents) => contents.get().since(),
            None => 0,
        }
    }

    /// The words of all objects in the heap, without holes.
    pub fn words(&self) -> u64
        ensures { result ≡ saturating_words (held_words self.now.chunks) }
    {
        match &self.contents {
            Some(contents) => contents.get().words(),
            None => 0,
        }
    }

    /// How many objects are in the heap.
    pub fn objects(&self) -> u64
        ensures { result ≡ saturating_words (object_count self.now.chunks) }
    {
        match &self.contents {
            Some(contents) => contents.get().objects(),
            None => 0,
        }
    }

    /// The words of all small objects in the heap.
    pub fn small_words(&self) -> u64
        ensures { result ≡ saturating_words (small_words self.now.chunks) }
    {
        match &self.contents {
            Some(contents) => contents.get().small_words(),
            None => 0,
        }
    }

    /// Sets the count of words placed to 0.
    pub fn reset_since(&mut self)
        ensures { self.new ≡ record self.old { since = 0 } }
    {
        match &mut self.contents {
            Some(contents) => contents.get_mut().reset_since(),
            None => {},
        }
    }

    /// Makes the pieces of all chunks without a cached one, so that a view has nothing to make until chunks change. If
    /// an allocation fails, those made before stay.
    pub fn settle(&mut self) -> Result<(), AllocError>
        ensures { self.new ≡ self.old }
    {
        match &mut self.contents {
            Some(contents) => contents.get_mut().settle(),
            None => Ok(()),
        }
    }

    /// Adds an empty chunk within the spare capacity, without allocating. A small one is filled from then on; a large
    /// one is reserved for a large object of exactly its units.
    pub fn add_spare(&mut self, chunk: Chunk)
        requires empty { chunk.cells ≡ [] }
        requires size { chunk_words ≤ chunk.size }
        requires fresh { IsFresh self.old.chunks chunk.number }
        requires slots { 0 < self.old.slots }
        requires spare { 0 < self.old.spare }
        ensures added { self.new ≡ with_places (added self.old chunk) self.new.slots self.new.spare }
        ensures slots { self.old.slots ≡ self.new.slots + 1 }
        ensures spare { self.old.spare ≤ self.new.spare + 1 }
    {
        match &mut self.contents {
            Some(contents) => contents.get_mut().add_spare(chunk),
            None => unreachable!(),
        }
    }

    /// Places an object, with its references nil and its numbers 0, and returns its address; None if a small object
    /// doesn't fit in the room, or no reserved chunk has exactly a large object's units.
    #[inline(always)]
    pub fn place(&mut self, new: New) -> Option<Addr>
        requires refs { new.header.nrefs < 2 ^ 20 }
        requires ints { new.header.nints < 2 ^ 20 }
        ensures address { let object = new_cell new.header new.birth in result ≡ option_map (λ i. next_address (chunk_at self.old.chunks i)) (place_for self.old (size_of object)) }
        ensures near { BeginsInFirstUnit result }
        ensures placed { let object = new_cell new.header new.birth in self.new ≡ with_object_placed self.old (place_for self.old (size_of object)) object }
        ensures settled { IsSettled self.old.chunks → IsSettled self.new.chunks }
    {
        match &mut self.contents {
            Some(contents) => contents.get_mut().place(new),
            None => None,
        }
    }

    /// Places an object with these references and numbers, and says where; None where `place` would
    /// place none of its kind.
    pub fn place_filled(&mut self, new: New, refs: &[Option<Addr>], ints: &[i64]) -> Option<Addr>
        requires refs { new.header.nrefs ≡ length refs.now }
        requires ints { new.header.nints ≡ length ints.now }
        requires few_refs { new.header.nrefs < 2 ^ 20 }
        requires few_ints { new.header.nints < 2 ^ 20 }
        requires places { All BeginsInFirstUnit refs.now }
        ensures address { let object = filled_cell new.header new.birth refs.now ints.now in result ≡ option_map (λ i. next_address (chunk_at self.old.chunks i)) (place_for self.old (size_of object)) }
        ensures near { BeginsInFirstUnit result }
        ensures placed { let object = filled_cell new.header new.birth refs.now ints.now in self.new ≡ with_object_placed self.old (place_for self.old (size_of object)) object }
        ensures settled { IsSettled self.old.chunks → IsSettled self.new.chunks }
    {
        match &mut self.contents {
            Some(contents) => contents.get_mut().place_filled(new, refs, ints),
            None => None,
        }
    }

    /// Reserves capacity for `chunks` more chunks, so that they can be added without allocating.
    pub fn make_room(&mut self, chunks: u32) -> Result<(), AllocError>
        ensures kept { self.new ≡ with_places self.old self.new.slots self.new.spare }
        ensures slots { OnOk result (chunks ≤ self.new.slots) }
        ensures spare { OnOk result (chunks ≤ self.new.spare) }
        ensures more_slots { self.old.slots ≤ self.new.slots }
        ensures more_spare { self.old.spare ≤ self.new.spare }
    {
        match &mut self.contents {
            Some(contents) => contents.get_mut().make_room(chunks),
            None => {
                if chunks > 0 {
                    self.contents = Some(with_room(self.alloc, chunks)?);
                }
                Ok(())
            }
        }
    }

    /// Like `make_room`, for chunks that are put in front of the others.
    pub fn make_room_before(&mut self, chunks: u32) -> Result<(), AllocError>
        ensures kept { self.new ≡ with_places self.old self.new.slots self.new.spare }
        ensures slots { OnOk result (chunks ≤ self.new.slots) }
        ensures spare { OnOk result (chunks ≤ self.new.spare) }
        ensures more_slots { self.old.slots ≤ self.new.slots }
        ensures more_spare { self.old.spare ≤ self.new.spare }
    {
        match &mut self.contents {
            Some(contents) => contents.get_mut().make_room_before(chunks),
            None => {
                if chunks > 0 {
                    self.contents = Some(with_room_before(self.alloc, chunks)?);
                }
                Ok(())
            }
        }
    }

    // Drops all pieces, before all chunks change.
    pub(crate) fn let_pieces_go(&mut self)
        ensures { self.new ≡ self.old }
    {
        match &mut self.contents {
            Some(contents) => contents.get_mut().let_pieces_go(),
            None => {}
        }
    }
}

// No chunk, with places for so many.
fn with_room(alloc: Global, chunks: u32) -> Result<BoxedSlot<Contents>, AllocError>
    ensures empty { IfOk result (λ c. c ≡ with_places no_contents c.slots c.spare) }
    ensures slots { IfOk result (λ c. chunks ≤ c.slots) }
    ensures spare { IfOk result (λ c. chunks ≤ c.spare) }
{
    let mut contents = BoxedSlot::new(alloc, Contents::new(alloc))?;
    contents.get_mut().make_room(chunks)?;
    Ok(contents)
}

// The same, with places for chunks that are put before others.
fn with_room_before(alloc: Global, chunks: u32) -> Result<BoxedSlot<Contents>, AllocError>
    ensures empty { IfOk result (λ c. c ≡ with_places no_contents c.slots c.spare) }
    ensures slots { IfOk result (λ c. chunks ≤ c.slots) }
    ensures spare { IfOk result (λ c. chunks ≤ c.spare) }
{
    let mut contents = BoxedSlot::new(alloc, Contents::new(alloc))?;
    contents.get_mut().make_room_before(chunks)?;
    Ok(contents)
}
