// The sweep of a heap whose snapshot is marked.

ghost use Rattle.std.specs.Prelude.{◌≡◌, ◌+◌, ◌<◌, ◌≤◌, ◌^◌, ◌++◌, ◌∷◌, [], All, IfSome, IsSome, filter, length, map, vec_capacity, vec_len};
ghost use Rattle.object_layout.specs.Place.{cell_at, put_cell, IsCellAt};
ghost use Rattle.object_layout.specs.Chunks.{place_in};
ghost use Rattle.leaf_heap.specs.LeafHeapValue.{units, with_places, HaveDistinctNumbers};
ghost use Rattle.leaf_heap.specs.Units.{counted32, unit_count};
ghost use Rattle.chunk_pool.specs.PoolValue.{slot_at};
ghost use Rattle.mark_sweep_gc.specs.MarkingValue.{has_address, marked_of, HasCapacityForAll, IsDone};
ghost use Rattle.mark_sweep_gc.specs.Swept.{gone_of, goes, has_number, has_object, is_object, chunk_number_at, place_at, stays, swept, swept_cell, swept_chunk, AreGiven};

use crate::marking::Marking;
use crate::room::MarkingRoom;
use chunk_pool::Pool;
use leaf_heap::{LeafHeap, counts_of};
use object_layout::{Addr, Chunk, drop_at, is_object_at, next_at, units};

impl Marking {
    /// How many units of 1,024 words a sweep would release.
    pub fn would_give(&self, heap: &LeafHeap) -> u32
        requires { IsDone self.now }
        ensures { result ≡ counted32 (unit_count (gone_of heap.now (marked_of self.now))) }
    {
        let chunks = heap.chunks();
        let reserved = number_of(chunks, heap.reserved());
        let mut units = 0u32;
        for chunk in chunks {
            units = units.saturating_add(self.units_gone(chunk, reserved));
        }
        units
    }

    /// Drops what isn't marked, and returns how many units of 1,024 words are released to the pool. A dropped object
    /// leaves a hole; a chunk without objects is released, except the reserved one. If the chunk that was being filled
    /// is released, the heap has no room. It doesn't allocate.
    pub fn sweep(self, heap: &mut LeafHeap, pool: &mut Pool) -> u32
        requires done { IsDone self }
        requires room { HasCapacityForAll heap.old.chunks self }
        requires in_use { All (λ k. IsSome (slot_at pool.old k.number)) heap.old.chunks }
        ensures heap { heap.new ≡ with_places (swept heap.old (marked_of self)) heap.new.slots heap.new.spare }
        ensures pool { AreGiven pool.old pool.new (gone_of heap.old (marked_of self)) }
        ensures units { result ≡ counted32 (unit_count (gone_of heap.old (marked_of self))) }
    {
        let (units, _) = self.sweep_keeping(heap, pool);
        units
    }

    /// Like `sweep`, and keeps the buffers of the marking for the next, as `into_room` does. The heap takes over its
    /// list for the remaining chunks.
    pub fn sweep_keeping(mut self, heap: &mut LeafHeap, pool: &mut Pool) -> (u32, MarkingRoom)
        requires done { IsDone self }
        requires room { HasCapacityForAll heap.old.chunks self }
        requires in_use { All (λ k. IsSome (slot_at pool.old k.number)) heap.old.chunks }
        ensures heap { heap.new ≡ with_places (swept heap.old (marked_of self)) heap.new.slots heap.new.spare }
        ensures pool { AreGiven pool.old pool.new (gone_of heap.old (marked_of self)) }
        ensures units { result.0 ≡ counted32 (unit_count (gone_of heap.old (marked_of self))) }
        ensures kept { result.1 ≤ 2 ^ 20 }
    {
        let mut left = self.take_list();
        let mut space = heap.open();
        let current = number_of(space.chunks(), space.current());
        let reserved = number_of(space.chunks(), space.reserved());
        let chunks = space.take_chunks();
        let units = self.part(chunks, reserved, &mut left, pool);
        let filled = place_of(&left, current);
        let kept = place_of(&left, reserved);
        let counts = counts_of(&left);
        space.put_chunks(left, counts, filled, kept);
        heap.close(space);
        (units, self.into_room())
    }

    // Sweeps these chunks: appends those that stay to a list, and releases the rest. Returns how many units these had.
    fn part(
        &self,
        chunks: Vec<Chunk>,
        reserved: Option<u32>,
        left: &mut Vec<Chunk>,
        pool: &mut Pool,
    ) -> u32
        requires apart { HaveDistinctNumbers chunks.items }
        requires in_use { All (λ k. IsSome (slot_at pool.old k.number)) chunks.items }
        requires room { vec_len left.old + vec_len chunks ≤ vec_capacity left.old }
        ensures left { left.new.items ≡ left.old.items ++ map (swept_chunk self.now.found) (filter (stays self.now.found reserved) chunks.items) }
        ensures pool { AreGiven pool.old pool.new (filter (goes self.now.found reserved) chunks.items) }
        ensures units { result ≡ counted32 (unit_count (filter (goes self.now.found reserved) chunks.items)) }
    {
        let mut units = 0u32;
        for chunk in chunks {
            units = units.saturating_add(self.keep_or_give(chunk, reserved, left, pool));
        }
        units
    }

    // Sweeps a chunk and appends it to a list, if it stays; otherwise releases it. Returns how many units were
    // released.
    fn keep_or_give(
        &self,
        mut chunk: Chunk,
        reserved: Option<u32>,
        left: &mut Vec<Chunk>,
        pool: &mut Pool,
    ) -> u32
        requires in_use { IsSome (slot_at pool.old chunk.number) }
        requires room { vec_len left.old < vec_capacity left.old }
        ensures left { left.new.items ≡ left.old.items ++ map (swept_chunk self.now.found) (filter (stays self.now.found reserved) (chunk ∷ [])) }
        ensures pool { AreGiven pool.old pool.new (filter (goes self.now.found reserved) (chunk ∷ [])) }
        ensures units { result ≡ unit_count (filter (goes self.now.found reserved) (chunk ∷ [])) }
        ensures count { vec_len left.new ≤ vec_len left.old + 1 }
        ensures capacity { vec_capacity left.new ≡ vec_capacity left.old }
    {
        if self.stays(&chunk, reserved) {
            self.sweep_chunk(&mut chunk);
            left.push_reserved(chunk);
            return 0;
        }
        let units = units_of(&chunk);
        pool.give(chunk);
        units
    }

    // How many units of a chunk would be released.
    fn units_gone(&self, chunk: &Chunk, reserved: Option<u32>) -> u32
        ensures { result ≡ unit_count (filter (goes self.now.found reserved) (chunk.now ∷ [])) }
    {
        if self.stays(chunk, reserved) {
            0
        } else {
            units_of(chunk)
        }
    }

    // Whether a chunk stays: it is the reserved one, or an object is left in it.
    fn stays(&self, chunk: &Chunk, reserved: Option<u32>) -> bool
        ensures { result ≡ stays self.now.found reserved chunk.now }
    {
        if is_of_number(chunk, reserved) {
            return true;
        }
        self.leaves_object(chunk)
    }

    // Whether an object is left in a chunk.
    fn leaves_object(&self, chunk: &Chunk) -> bool
        ensures { result ≡ has_object (swept_chunk self.now.found chunk.now).cells }
    {
        let used = chunk.used();
        let mut at = 0;
        while at < used {
            if self.leaves_object_at(chunk, at) {
                return true;
            }
            at = next_at(chunk, at);
        }
        false
    }

    // Whether an object is left at an offset.
    fn leaves_object_at(&self, chunk: &Chunk, at: u32) -> bool
        requires { IsCellAt chunk.now.cells at }
        ensures { result ≡ is_object (swept_cell (has_address self.now.found (record { chunk = chunk.now.number; offset = at })) (cell_at chunk.now.cells at)).mark }
    {
        if !is_object_at(chunk, at) {
            return false;
        }
        self.has(Addr {
            chunk: chunk.number(),
            offset: at,
        })
    }

    // Drops each object of a chunk that isn't found.
    fn sweep_chunk(&self, chunk: &mut Chunk)
        ensures { chunk.new ≡ swept_chunk self.now.found chunk.old }
    {
        let used = chunk.used();
        let mut at = 0;
        while at < used {
            self.sweep_at(chunk, at);
            at = next_at(chunk, at);
        }
    }

    // Drops the object at an offset, if one is there that isn't found.
    fn sweep_at(&self, chunk: &mut Chunk, at: u32)
        requires { IsCellAt chunk.old.cells at }
        ensures { chunk.new ≡ record chunk.old { cells = put_cell chunk.old.cells at (swept_cell (has_address self.now.found (record { chunk = chunk.old.number; offset = at })) (cell_at chunk.old.cells at)) } }
    {
        if !is_object_at(chunk, at) {
            return;
        }
        if !self.leaves_object_at(chunk, at) {
            drop_at(chunk, at);
        }
    }
}

// The number of the chunk at a position.
fn number_of(chunks: &[Chunk], place: Option<usize>) -> Option<u32>
    requires { IfSome place (λ i. i < length chunks.now) }
    ensures { result ≡ chunk_number_at chunks.now place }
{
    match place {
        None => None,
        Some(i) => Some(chunks[i].number()),
    }
}

// The position of the chunk of a number.
fn place_of(chunks: &[Chunk], number: Option<u32>) -> Option<usize>
    ensures { result ≡ place_at chunks.now number }
{
    match number {
        None => None,
        Some(number) => find(chunks, number),
    }
}

fn find(chunks: &[Chunk], number: u32) -> Option<usize>
    ensures { result ≡ place_in chunks.now number }
{
    for (i, chunk) in chunks.iter().enumerate() {
        if chunk.number() == number {
            return Some(i);
        }
    }
    None
}

// Whether the chunk has this number.
fn is_of_number(chunk: &Chunk, number: Option<u32>) -> bool
    ensures { result ≡ has_number number chunk.now }
{
    match number {
        None => false,
        Some(number) => chunk.number() == number,
    }
}

// The units of a chunk.
fn units_of(chunk: &Chunk) -> u32
    ensures { result ≡ units chunk.now.size }
{
    units(chunk.size() as u64) as u32
}
