// The chunks of a heap, and where the next object goes.

ghost use Rattle.std.specs.Prelude.{◌≡◌, ◌+◌, ◌^◌, ◌<◌, ◌≤◌, [], is_some, option_map, OnOk, None, Some};
ghost use Rattle.object_layout.specs.Cell.{size_of, new_cell, BeginsInFirstUnit, chunk_words};
ghost use Rattle.object_layout.specs.Chunks.{chunk_at, held_words, next_address, object_count, small_words};
ghost use Rattle.leaf_heap.specs.LeafHeapValue.{added, saturating_words, no_contents, with_object_placed, placed_at, place_for, room_of, with_places, CellsFitInChunks, IsCurrent, IsFresh, IsReserved, IsSettled};

use super::counts::small_part;
use chunk_list::{ChunkList, Pieces, missing_pieces};
use object_layout::{Addr, Birth, CHUNK_WORDS, Chunk, Header, units, write_new};
use std::alloc::{AllocError, AllocFailed, Global};
use std::collections::HashMap;
use std::marker::Model;

/// The words of a small chunk. An object of more words is large.
pub(crate) const SMALL: u32 = CHUNK_WORDS as u32;

/// The base of the table in a heap into which no chunks were merged.
pub(crate) const BASE: usize = 1 << 63;

/// The least capacity for numbers of changed chunks in a settled heap. It has one more for each eight chunks.
const LEAST_PLACES: usize = 8;

/// An object to be placed: its kind and its birth name.
#[derive(Clone, Copy)]
pub struct New {
    pub header: Header,
    pub birth: Birth,
}

/// What a heap with chunks has: the chunks, the table of their numbers, and what they hold, counted.
///
/// The table tells for a chunk's number how far the chunk stands before `base`: chunks that are
/// merged before all others move that, and no entry.
#[derive(Drop)]
pub(crate) struct Contents {
    pub(crate) chunks: ChunkList,
    // Pieces of the chunks, and which chunks have changed since.
    pub(crate) pieces: Pieces,
    pub(crate) table: HashMap<u32, usize>,
    pub(crate) base: usize,
    pub(crate) current: Option<usize>,
    pub(crate) reserved: Option<usize>,
    pub(crate) since: u64,
    pub(crate) words: u64,
    pub(crate) objects: u64,
    pub(crate) small: u64,
}

impl Model for Contents {
    ghost use Rattle.leaf_heap.specs.LeafHeapValue.{LeafHeapValue, AgreesWithChunks};
    ghost use Rattle.std.specs.Prelude.{nat_eq};
    ghost use Rattle.std.specs.HashMap.{get, hash_map_len, spare};

    ghost Value = { LeafHeapValue };

    ghost view = { λ h. record { chunks = h.chunks.items; current = h.current; reserved = h.reserved; since = h.since; slots = h.chunks.places; spare = spare h.table } };

    ghost invariant = { λ h. AgreesWithChunks h.chunks.items h.pieces h.current h.reserved h.words h.objects h.small h.base (get nat_eq h.table) (hash_map_len h.table) };
}

impl Contents {
    /// A heap without chunks.
    pub fn new(alloc: Global) -> Contents
        ensures { result ≡ record { chunks = []; current = None; reserved = None; since = 0; slots = result.slots; spare = result.spare } }
    {
        Contents {
            chunks: ChunkList::new(alloc),
            pieces: Pieces::new(),
            table: HashMap::new(alloc),
            base: BASE,
            current: None,
            reserved: None,
            since: 0,
            words: 0,
            objects: 0,
            small: 0,
        }
    }

    // The allocator of its lists.
    pub(crate) fn allocator(&self) -> Global {
        self.chunks.allocator()
    }

    /// The chunks in the order in which they were added: small ones, those of large objects, and the reserved one.
    pub fn chunks(&self) -> &[Chunk]
        ensures { result.now ≡ self.now.chunks }
    {
        self.chunks.as_slice()
    }

    // All words lie inside their chunks.
    pub(crate) fn lie_within(&self)
        ensures { CellsFitInChunks self.now.chunks }
    {
        let _ = &self.chunks;
    }

    /// The position of the small chunk that is being filled, if any.
    pub fn current(&self) -> Option<usize>
        ensures place { result ≡ self.now.current }
        ensures small { IsCurrent self.now.chunks result }
    {
        self.current
    }

    /// Whether `place` would place an object of `words` words.
    #[inline(always)]
    pub fn has_place(&self, words: u32) -> bool
        ensures { result ≡ is_some (place_for self.now words) }
    {
        self.chunk_for(words).is_some()
    }

    /// The position of the chunk that is reserved for a large object, if any.
    pub fn reserved(&self) -> Option<usize>
        ensures place { result ≡ self.now.reserved }
        ensures empty { IsReserved self.now.chunks result }
    {
        self.reserved
    }

    /// The words left in the small chunk that is being filled; 0 without one.
    pub fn room(&self) -> u32
        ensures { result ≡ room_of self.now }
    {
        match self.current {
            None => 0,
            Some(i) => {
                let chunk = self.chunks.at(i);
                chunk.size() - chunk.used()
            }
        }
    }

    /// The words of all objects that were placed since the count was last set to 0.
    pub fn since(&self) -> u64
        ensures { result ≡ self.now.since }
    {
        self.since
    }

    /// The words of all objects in the heap, without holes.
    pub fn words(&self) -> u64
        ensures { result ≡ saturating_words (held_words self.now.chunks) }
    {
        self.words
    }

    /// How many objects are in the heap.
    pub fn objects(&self) -> u64
        ensures { result ≡ saturating_words (object_count self.now.chunks) }
    {
        self.objects
    }

    /// The words of all small objects in the heap.
    pub fn small_words(&self) -> u64
        ensures { result ≡ saturating_words (small_words self.now.chunks) }
    {
        self.small
    }

    /// Sets the count of words placed to 0.
    pub fn reset_since(&mut self)
        ensures { self.new ≡ record self.old { since = 0 } }
    {
        self.since = 0;
    }

    // The words of another heap are counted as placed too, where neither has a chunk.
    pub(crate) fn count_placed(&mut self, words: u64)
        requires { self.old.chunks ≡ [] }
        ensures { self.new ≡ record no_contents { since = saturating_words (self.old.since + words); slots = self.new.slots; spare = self.new.spare } }
    {
        self.since = self.since.saturating_add(words);
    }

    /// Reserves capacity for `chunks` more chunks, so that they can be added without allocating.
    pub fn make_room(&mut self, chunks: u32) -> Result<(), AllocError>
        ensures kept { self.new ≡ with_places self.old self.new.slots self.new.spare }
        ensures slots { OnOk result (chunks ≤ self.new.slots) }
        ensures spare { OnOk result (chunks ≤ self.new.spare) }
        ensures more_slots { self.old.slots ≤ self.new.slots }
        ensures more_spare { self.old.spare ≤ self.new.spare }
    {
        self.chunks.reserve(chunks as usize)?;
        self.pieces.make_places(chunks as usize)?;
        self.table.reserve(chunks as usize)
    }

    /// Like `make_room`, for chunks that are put in front of the others.
    pub fn make_room_before(&mut self, chunks: u32) -> Result<(), AllocError>
        ensures kept { self.new ≡ with_places self.old self.new.slots self.new.spare }
        ensures slots { OnOk result (chunks ≤ self.new.slots) }
        ensures spare { OnOk result (chunks ≤ self.new.spare) }
        ensures more_slots { self.old.slots ≤ self.new.slots }
        ensures more_spare { self.old.spare ≤ self.new.spare }
    {
        self.chunks.reserve_before(chunks as usize)?;
        self.pieces.make_places(chunks as usize)?;
        self.table.reserve(chunks as usize)
    }

    /// Makes the pieces of all chunks without a cached one, so that a view has nothing to make until chunks change. If
    /// an allocation fails, those made before stay.
    pub fn settle(&mut self) -> Result<(), AllocError>
        ensures { self.new ≡ self.old }
    {
        if self.pieces.is_settled() {
            return Ok(());
        }
        let alloc = self.allocator();
        let layer = missing_pieces(
            alloc,
            &self.pieces,
            self.chunks.as_slice(),
            &self.table,
            self.base,
        )?;
        let places = LEAST_PLACES + self.chunks.len() / 8;
        self.pieces.put(alloc, layer, places)
    }

    // Drops all pieces, before all chunks change.
    pub(crate) fn let_pieces_go(&mut self)
        ensures { self.new ≡ self.old }
    {
        self.pieces.let_go();
    }

    /// Adds an empty chunk within the spare capacity, without allocating. A small one is filled from then on; a large
    /// one is reserved for a large object of exactly its units.
    pub fn add_spare(&mut self, chunk: Chunk)
        requires empty { chunk.cells ≡ [] }
        requires size { chunk_words ≤ chunk.size }
        requires fresh { IsFresh self.old.chunks chunk.number }
        requires slots { 0 < self.old.slots }
        requires spare { 0 < self.old.spare }
        ensures added { self.new ≡ with_places (added self.old chunk) self.new.slots self.new.spare }
        ensures slots { self.old.slots ≡ self.new.slots + 1 }
        ensures spare { self.old.spare ≤ self.new.spare + 1 }
    {
        let place = self.chunks.len();
        let is_small = chunk.size() == SMALL;
        let number = chunk.number();
        self.pieces.note_change(number);
        let _ = self.table.insert(number, self.base - place);
        self.chunks.push_reserved(chunk);
        if is_small {
            self.current = Some(place);
        } else {
            self.reserved = Some(place);
        }
    }

    /// Places an object, with its references nil and its numbers 0, and returns its address; None if a small object
    /// doesn't fit in the room, or no reserved chunk has exactly a large object's units.
    #[inline(always)]
    pub fn place(&mut self, new: New) -> Option<Addr>
        requires refs { new.header.nrefs < 2 ^ 20 }
        requires ints { new.header.nints < 2 ^ 20 }
        ensures address { let object = new_cell new.header new.birth in result ≡ option_map (λ i. next_address (chunk_at self.old.chunks i)) (place_for self.old (size_of object)) }
        ensures near { BeginsInFirstUnit result }
        ensures placed { let object = new_cell new.header new.birth in self.new ≡ with_object_placed self.old (place_for self.old (size_of object)) object }
        ensures settled { IsSettled self.old.chunks → IsSettled self.new.chunks }
    {
        let words = 2 + new.header.nrefs + new.header.nints;
        match self.chunk_for(words) {
            None => None,
            Some(i) => Some(self.place_in_chunk(i, new)),
        }
    }

    // The position of the chunk into which an object of `words` words goes.
    #[inline(always)]
    pub(crate) fn chunk_for(&self, words: u32) -> Option<usize>
        ensures { result ≡ place_for self.now words }
    {
        if words <= SMALL {
            return if words <= self.room() {
                self.current
            } else {
                None
            };
        }
        match self.reserved {
            None => None,
            Some(i) => {
                if self.chunks.at(i).size() as u64 == CHUNK_WORDS * units(words as u64) {
                    Some(i)
                } else {
                    None
                }
            }
        }
    }

    // Places an object in the chunk at a position.
    #[inline(always)]
    fn place_in_chunk(&mut self, i: usize, new: New) -> Addr
        requires refs { new.header.nrefs < 2 ^ 20 }
        requires ints { new.header.nints < 2 ^ 20 }
        requires fits { place_for self.old (size_of (new_cell new.header new.birth)) ≡ Some i }
        ensures address { result ≡ next_address (chunk_at self.old.chunks i) }
        ensures near { result.offset < chunk_words }
        ensures placed { self.new ≡ placed_at self.old i (new_cell new.header new.birth) }
        ensures settled { IsSettled self.old.chunks → IsSettled self.new.chunks }
    {
        let words = 2 + new.header.nrefs + new.header.nints;
        let chunk = self.chunks.at_mut(i);
        let offset = chunk.used();
        let number = chunk.number();
        self.pieces.note_write(number, new.header.mutable);
        write_new(chunk, offset, new.header, new.birth);
        if words > SMALL {
            self.reserved = None;
        }
        self.since = self.since.saturating_add(words as u64);
        self.words = self.words.saturating_add(words as u64);
        self.objects = self.objects.saturating_add(1);
        self.small = self.small.saturating_add(small_part(words) as u64);
        Addr {
            chunk: number,
            offset,
        }
    }
}
