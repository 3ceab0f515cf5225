// Copies survivors into new chunks, in their order.

ghost use Rattle.std.specs.Prelude.{◌≡◌, ◌+◌, ◌≤◌, ◌<◌, ◌++◌, ◌∷◌, [], length, fold, true, Some};
ghost use Rattle.object_layout.specs.Cell.{Moved, size_of, with_mark, IsObject, chunk_words};
ghost use Rattle.object_layout.specs.Place.{words_in};
ghost use Rattle.object_layout.specs.Chunks.{cell_of, next_address, place_in, put_object};
ghost use Rattle.copying_gc.specs.Survivors.{with_chunks};
ghost use Rattle.copying_gc.specs.Laid.{is_moved, next_place, opened, placed_behind, room_in, ObjectFits};
ghost use Rattle.copying_gc.specs.Copying.{copied, copied_last, copied_one, survivor_cell, CanBeCopied};

use crate::collector::Collector;
use crate::lists::Survivor;
use leaf_heap::Space;
use object_layout::{Addr, CHUNK_WORDS, Chunk, copy_behind, header_at, set_birth};

/// The most words of a small object.
pub(crate) const SMALL: u32 = CHUNK_WORDS as u32;

// How many words the object at an address takes.
pub(crate) fn size_at(heap: &Space, object: Addr) -> u32
    requires { IsObject (cell_of heap.now.chunks object).mark }
    ensures { result ≡ size_of (cell_of heap.now.chunks object) }
{
    let header = heap.own_header(object);
    2 + header.nrefs + header.nints
}

// Like `size_at`, given the position of the object's chunk.
fn size_in(heap: &Space, place: usize, object: Addr) -> u32
    requires place { place_in heap.now.chunks object.chunk ≡ Some place }
    requires object { IsObject (cell_of heap.now.chunks object).mark }
    ensures { result ≡ size_of (cell_of heap.now.chunks object) }
{
    let header = header_at(heap.chunk_in(place), object.offset);
    2 + header.nrefs + header.nints
}

// The words left in the last chunk.
fn room_left(laid: &[Chunk]) -> u32
    ensures { result ≡ room_in laid.now }
{
    let count = laid.len();
    if count == 0 {
        return 0;
    }
    let chunk = &laid[count - 1];
    chunk.size() - chunk.used()
}

// Appends a copy of an object, whose chunk is at this position, to a new chunk under its birth name, and returns its
// address. The old chunk is unchanged.
fn copy_out(heap: &Space, place: usize, survivor: Survivor, to: &mut Chunk) -> Addr
    requires place { place_in heap.now.chunks survivor.old.chunk ≡ Some place }
    requires object { IsObject (cell_of heap.now.chunks survivor.old).mark }
    requires room { words_in to.old.cells + size_of (cell_of heap.now.chunks survivor.old) ≤ to.old.size }
    ensures address { result ≡ next_address to.old }
    ensures copied { to.new ≡ record to.old { cells = to.old.cells ++ survivor_cell heap.now.chunks survivor ∷ [] } }
{
    let from = heap.chunk_in(place);
    let offset = copy_behind(from, survivor.old.offset, to);
    let address = Addr {
        chunk: to.number(),
        offset,
    };
    set_birth(to, offset, survivor.birth);
    address
}

// Copies an object, whose chunk is at this position, into the last new chunk, and leaves its new address behind.
fn move_last(heap: &mut Space, place: usize, survivor: Survivor, laid: &mut [Chunk]) -> Addr
    requires place { place_in heap.old.chunks survivor.old.chunk ≡ Some place }
    requires object { IsObject (cell_of heap.old.chunks survivor.old).mark }
    requires room { size_of (cell_of heap.old.chunks survivor.old) ≤ room_in laid.old }
    requires begins { (next_place laid.old).offset < chunk_words }
    ensures address { result ≡ next_place laid.old }
    ensures laid { laid.new ≡ placed_behind laid.old (survivor_cell heap.old.chunks survivor) }
    ensures left { heap.new ≡ with_chunks heap.old (put_object heap.old.chunks survivor.old (with_mark (cell_of heap.old.chunks survivor.old) (Moved result))) }
{
    let last = laid.len() - 1;
    let address = copy_out(heap, place, survivor, &mut laid[last]);
    heap.forward_in(place, survivor.old, address);
    address
}

impl Collector {
    // Opens the next chunk, if the last one has less room than this.
    fn open(&mut self, size: u32)
        ensures { self.new ≡ record self.old { laying = opened self.old.laying size } }
    {
        if room_left(&self.laid) < size {
            if let Some(chunk) = self.spare.pop() {
                self.laid.push_reserved(chunk);
            }
        }
    }

    // Copies a survivor, whose chunk is at this position, into the last new chunk.
    fn copy_last(&mut self, place: usize, survivor: Survivor)
        requires place { place_in self.old.heap.chunks survivor.old.chunk ≡ Some place }
        requires object { IsObject (cell_of self.old.heap.chunks survivor.old).mark }
        requires fits { size_of (cell_of self.old.heap.chunks survivor.old) ≤ room_in self.old.laying.laid }
        requires begins { (next_place self.old.laying.laid).offset < chunk_words }
        requires list { length self.old.moved < length self.old.found }
        ensures { self.new ≡ copied_last self.old survivor }
    {
        let address = move_last(&mut self.heap, place, survivor, &mut self.laid);
        self.moved.push_reserved((survivor.old, address));
    }

    // Copies a survivor of `size` words, whose chunk is at this position.
    fn copy_one(&mut self, place: usize, size: u32, survivor: Survivor)
        requires place { place_in self.old.heap.chunks survivor.old.chunk ≡ Some place }
        requires size { size ≡ size_of (cell_of self.old.heap.chunks survivor.old) }
        requires object { IsObject (cell_of self.old.heap.chunks survivor.old).mark }
        requires room { ObjectFits self.old.laying size }
        requires list { length self.old.moved < length self.old.found }
        ensures { self.new ≡ copied_one self.old survivor }
    {
        self.open(size);
        self.copy_last(place, survivor);
    }

    // Copies a survivor, whose chunk is at this position, if it is small.
    fn copy_if_small(&mut self, place: usize, survivor: Survivor)
        requires place { place_in self.old.heap.chunks survivor.old.chunk ≡ Some place }
        requires object { IsObject (cell_of self.old.heap.chunks survivor.old).mark }
        requires room { is_moved self.old.heap.chunks survivor.old ≡ true → ObjectFits self.old.laying (size_of (cell_of self.old.heap.chunks survivor.old)) }
        requires list { length self.old.moved < length self.old.found }
        ensures { self.new ≡ copied self.old survivor }
    {
        let size = size_in(&self.heap, place, survivor.old);
        if size <= SMALL {
            self.copy_one(place, size, survivor);
        }
    }

    // Copies a survivor, if it is small.
    fn copy_small(&mut self, survivor: Survivor)
        requires object { IsObject (cell_of self.old.heap.chunks survivor.old).mark }
        requires room { is_moved self.old.heap.chunks survivor.old ≡ true → ObjectFits self.old.laying (size_of (cell_of self.old.heap.chunks survivor.old)) }
        requires list { length self.old.moved < length self.old.found }
        ensures { self.new ≡ copied self.old survivor }
    {
        let place = self.place_of(survivor.old);
        self.copy_if_small(place, survivor);
    }

    /// Copies the small survivors in order.
    pub(crate) fn copy_all(&mut self)
        requires ready { CanBeCopied self.old self.old.found }
        requires none { self.old.moved ≡ [] }
        ensures { self.new ≡ fold copied self.old self.old.found }
    {
        for next in 0..self.found.len() {
            let survivor = self.found[next];
            self.copy_small(survivor);
        }
    }
}
