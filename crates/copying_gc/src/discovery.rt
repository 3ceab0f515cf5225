// Finds what survives.

ghost use Rattle.std.specs.Prelude.{◌≡◌, ◌<◌, ◌↔◌, [], length, fold, map, option_map, slice_get, All, Contains, IfSome, Some};
ghost use Rattle.std.specs.List.{IsDistinct};
ghost use Rattle.object_layout.specs.Cell.{IsObject, BeginsInFirstUnit};
ghost use Rattle.object_layout.specs.Place.{cell_at, IsObjectAt};
ghost use Rattle.object_layout.specs.Chunks.{cell_of, place_in, same_address};
ghost use Rattle.copying_gc.specs.Survivors.{as_reference, frame_references, olds, outside, with_chunks, HaveNames, IsSurvivor};
ghost use Rattle.copying_gc.specs.Search.{all_found, birth_in, visited_reference, IsTarget};
ghost use Rattle.object_layout.specs.declared.word.Addr.{Addr};
ghost use Rattle.object_layout.specs.Graph.{HeapIsClosed, IsSoundReference};
ghost use Rattle.task_frames.specs.FramesValue.{frames_of};

use crate::collector::Collector;
use crate::lists::Survivor;
use leaf_heap::Space;
use object_layout::{Addr, Birth, Chunk, birth_at, forwarded_at, header_at, ref_at};
use task_frames::Frames;

// An object that still has its birth name: that name, and the position of its chunk.
#[derive(Clone, Copy)]
struct Live {
    birth: Birth,
    place: usize,
}

// The birth name of an object of a chunk, if it still has it.
fn birth_in(chunk: &Chunk, at: u32) -> Option<Birth>
    requires { IsObjectAt chunk.now.cells at }
    ensures { result ≡ birth_in (cell_at chunk.now.cells at).mark }
{
    match forwarded_at(chunk, at) {
        Some(_) => None,
        None => Some(birth_at(chunk, at)),
    }
}

// The object at an address, if its chunk is at a position of the heap, and it still has its birth name.
fn live_at(heap: &Space, place: Option<usize>, object: Addr) -> Option<Live>
    requires place { place ≡ place_in heap.now.chunks object.chunk }
    requires target { IsTarget heap.now.chunks (Some object) }
    ensures birth { option_map (λ l. l.birth) result ≡ birth_in (cell_of heap.now.chunks object).mark }
    ensures place { IfSome result (λ l. place_in heap.now.chunks object.chunk ≡ Some l.place) }
{
    let place = place?;
    let chunk = heap.chunk_in(place);
    let birth = birth_in(chunk, object.offset)?;
    Some(Live { birth, place })
}

// How many references an object has, whose chunk is at this position.
pub(crate) fn refs_in(heap: &Space, place: usize, object: Addr) -> u32
    requires place { place_in heap.now.chunks object.chunk ≡ Some place }
    requires object { IsObject (cell_of heap.now.chunks object).mark }
    ensures { result ≡ length (cell_of heap.now.chunks object).refs }
{
    header_at(heap.chunk_in(place), object.offset).nrefs
}

// A reference of an object, whose chunk is at this position.
pub(crate) fn ref_in(heap: &Space, place: usize, object: Addr, field: u32) -> Option<Addr>
    requires place { place_in heap.now.chunks object.chunk ≡ Some place }
    requires object { IsObject (cell_of heap.now.chunks object).mark }
    requires field { field < length (cell_of heap.now.chunks object).refs }
    ensures value { slice_get (cell_of heap.now.chunks object).refs field ≡ Some result }
    ensures place { BeginsInFirstUnit result }
{
    ref_at(heap.chunk_in(place), object.offset, field)
}

impl Collector {
    // Adds the object at an address to those found, if it is in the heap and not found yet.
    fn visit(&mut self, reference: Option<Addr>)
        requires { IsTarget self.old.heap.chunks reference }
        ensures { self.new ≡ visited_reference self.old reference }
    {
        if let Some(address) = reference {
            let place = self.target.place_of(&self.heap, address.chunk);
            if let Some(live) = live_at(&self.heap, place, address) {
                self.heap.forward_in(live.place, address, address);
                self.found.push_reserved(Survivor {
                    birth: live.birth,
                    old: address,
                });
            }
        }
    }

    // Follows each of these references.
    fn visit_all(&mut self, references: &[Option<Addr>])
        requires { All (IsTarget self.old.heap.chunks) references.now }
        ensures { self.new ≡ fold visited_reference self.old references.now }
    {
        for &reference in references {
            self.visit(reference);
        }
    }

    // Follows each reference of an object, whose chunk is at this position.
    fn visit_fields(&mut self, place: usize, object: Addr)
        requires place { place_in self.old.heap.chunks object.chunk ≡ Some place }
        requires object { IsObject (cell_of self.old.heap.chunks object).mark }
        requires targets { All (IsTarget self.old.heap.chunks) (cell_of self.old.heap.chunks object).refs }
        ensures { self.new ≡ fold visited_reference self.old (cell_of self.old.heap.chunks object).refs }
    {
        for field in 0..refs_in(&self.heap, place, object) {
            let reference = ref_in(&self.heap, place, object, field);
            self.visit(reference);
        }
    }

    // Follows each reference of an object.
    fn visit_refs(&mut self, object: Addr)
        requires object { IsObject (cell_of self.old.heap.chunks object).mark }
        requires targets { All (IsTarget self.old.heap.chunks) (cell_of self.old.heap.chunks object).refs }
        ensures { self.new ≡ fold visited_reference self.old (cell_of self.old.heap.chunks object).refs }
    {
        let place = self.place_of(object);
        self.visit_fields(place, object);
    }

    // Follows the references of all frames.
    fn visit_frames(&mut self, frames: &Frames)
        requires { All (IsTarget self.old.heap.chunks) (frame_references (frames_of frames.now)) }
        ensures { self.new ≡ fold visited_reference self.old (frame_references (frames_of frames.now)) }
    {
        for frame in 0..frames.depth() {
            let references = frames.references_in(frame);
            self.visit_all(&references);
        }
    }

    // Follows the roots.
    fn visit_roots(&mut self, roots: &[Addr])
        requires { All (IsTarget self.old.heap.chunks) (map as_reference roots.now) }
        ensures { self.new ≡ fold visited_reference self.old (map as_reference roots.now) }
    {
        for &root in roots {
            self.visit(Some(root));
        }
    }

    /// Finds what the references of the frames and the roots lead to within the heap: exactly what survives. Each
    /// survivor is marked as moved to where it is.
    pub(crate) fn discover(&mut self, frames: &Frames, roots: &[Addr])
        requires closed { HeapIsClosed self.old.heap.chunks }
        requires outside { All (IsSoundReference self.old.heap.chunks) (outside frames.now roots.now) }
        requires none { self.old.found ≡ [] }
        ensures survivors { (a : Addr) → Contains (olds self.new.found) a ↔ IsSurvivor self.old.heap.chunks (outside frames.now roots.now) a }
        ensures once { IsDistinct same_address (olds self.new.found) }
        ensures names { HaveNames self.old.heap.chunks self.new.found }
        ensures marked { self.new ≡ record self.old { heap = with_chunks self.old.heap (all_found self.old.heap.chunks (olds self.new.found)); found = self.new.found } }
    {
        self.visit_frames(frames);
        self.visit_roots(roots);
        let mut next = 0;
        while next < self.found.len() {
            let object = self.found[next].old;
            self.visit_refs(object);
            next += 1;
        }
    }
}
