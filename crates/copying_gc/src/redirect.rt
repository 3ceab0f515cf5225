// Updates references to where their objects are now.

ghost use Rattle.std.specs.Prelude.{◌≡◌, map, fold, All, IsTrue, Some};
ghost use Rattle.object_layout.specs.Cell.{BeginsInFirstUnit};
ghost use Rattle.object_layout.specs.Chunks.{cell_of, held_words, place_in, small_words};
ghost use Rattle.object_layout.specs.Place.{cell_at, put_cell, IsObjectAt};
ghost use Rattle.task_frames.specs.FramesValue.{frames_of};
ghost use Rattle.copying_gc.specs.Survivors.{frame_references, with_chunks};
ghost use Rattle.copying_gc.specs.Near.{FindsChunk};
ghost use Rattle.copying_gc.specs.Search.{IsTarget};
ghost use Rattle.copying_gc.specs.Redirected.{followed, followed_at, followed_large, followed_ref, led_cell, led_chunk, led_frame, CanBeFollowed, HasTargets};

use crate::collector::Collector;
use crate::copying::{SMALL, size_at};
use crate::discovery::{ref_in, refs_in};
use crate::lists::Survivor;
use crate::near::Near;
use leaf_heap::Space;
use object_layout::{Addr, Chunk, forwarded_at, header_at, next_at, ref_at, set_ref};
use task_frames::Frames;

// Where the object at an address, whose chunk is at this position of the heap, is now, if it was moved.
fn follow_in(heap: &Space, place: Option<usize>, address: Addr) -> Option<Addr>
    requires place { place ≡ place_in heap.now.chunks address.chunk }
    requires target { IsTarget heap.now.chunks (Some address) }
    ensures value { result ≡ followed heap.now.chunks address }
    ensures place { BeginsInFirstUnit (Some address) → BeginsInFirstUnit result }
{
    match place {
        None => Some(address),
        Some(place) => forwarded_at(heap.chunk_in(place), address.offset),
    }
}

// Where the object of a reference is now.
fn follow(heap: &Space, reference: Option<Addr>) -> Option<Addr>
    requires { IsTarget heap.now.chunks reference }
    ensures value { result ≡ followed_ref heap.now.chunks reference }
    ensures place { BeginsInFirstUnit reference → BeginsInFirstUnit result }
{
    match reference {
        None => None,
        Some(address) => follow_in(heap, heap.place_of(address.chunk), address),
    }
}

// The same with a cached chunk position.
fn follow_near(heap: &Space, near: &mut Near, reference: Option<Addr>) -> Option<Addr>
    requires known { FindsChunk near.old heap.now.chunks }
    requires target { IsTarget heap.now.chunks reference }
    ensures known { FindsChunk near.new heap.now.chunks }
    ensures value { result ≡ followed_ref heap.now.chunks reference }
    ensures place { BeginsInFirstUnit reference → BeginsInFirstUnit result }
{
    match reference {
        None => None,
        Some(address) => follow_in(heap, near.place_of(heap, address.chunk), address),
    }
}

// Updates the references of an object of a new chunk.
fn follow_refs(chunk: &mut Chunk, at: u32, heap: &Space, near: &mut Near)
    requires known { FindsChunk near.old heap.now.chunks }
    requires object { IsObjectAt chunk.old.cells at }
    requires targets { All (IsTarget heap.now.chunks) (cell_at chunk.old.cells at).refs }
    ensures known { FindsChunk near.new heap.now.chunks }
    ensures led { chunk.new ≡ record chunk.old { cells = put_cell chunk.old.cells at (led_cell (followed_ref heap.now.chunks) (cell_at chunk.old.cells at)) } }
{
    for field in 0..header_at(chunk, at).nrefs {
        let now = follow_near(heap, near, ref_at(chunk, at, field));
        set_ref(chunk, at, field, now);
    }
}

// Updates the references of all objects of a new chunk.
fn follow_chunk(chunk: &mut Chunk, heap: &Space)
    requires { All (HasTargets heap.now.chunks) chunk.old.cells }
    ensures { chunk.new ≡ led_chunk (followed_ref heap.now.chunks) chunk.old }
{
    let mut near = Near::of(heap);
    let used = chunk.used();
    let mut at = 0;
    while at < used {
        let next = next_at(chunk, at);
        follow_refs(chunk, at, heap, &mut near);
        at = next;
    }
}

// Updates the references of all objects of the new chunks.
fn follow_chunks(chunks: &mut [Chunk], heap: &Space)
    requires { All (λ k. All (HasTargets heap.now.chunks) k.cells) chunks.old }
    ensures { chunks.new ≡ map (led_chunk (followed_ref heap.now.chunks)) chunks.old }
{
    for chunk in chunks.iter_mut() {
        follow_chunk(chunk, heap);
    }
}

// Updates the references of an object of the heap.
fn follow_object(heap: &mut Space, object: Addr)
    requires { HasTargets heap.old.chunks (cell_of heap.old.chunks object) }
    ensures { heap.new ≡ with_chunks heap.old (followed_at heap.old.chunks object) }
{
    let place = heap.own_place(object.chunk);
    let mut near = Near::of(heap);
    for field in 0..refs_in(heap, place, object) {
        let now = follow_near(heap, &mut near, ref_in(heap, place, object, field));
        heap.set_ref_in(place, object, field, now);
    }
}

// Updates these references.
fn follow_all(references: &mut [Option<Addr>], heap: &Space)
    requires { All (IsTarget heap.now.chunks) references.old }
    ensures { references.new ≡ map (followed_ref heap.now.chunks) references.old }
{
    for reference in references.iter_mut() {
        *reference = follow(heap, *reference);
    }
}

// Updates the references of all frames.
fn follow_frames(frames: &mut Frames, heap: &Space)
    requires { All (IsTarget heap.now.chunks) (frame_references (frames_of frames.old)) }
    ensures { frames_of frames.new ≡ map (led_frame (followed_ref heap.now.chunks)) (frames_of frames.old) }
{
    for frame in 0..frames.depth() {
        let mut references = frames.references_in(frame);
        follow_all(&mut references, heap);
        frames.set_references_in(frame, &references);
    }
}

// Updates the references of an object of the heap, if it is large.
fn follow_if_large(heap: &mut Space, survivor: Survivor)
    requires { HasTargets heap.old.chunks (cell_of heap.old.chunks survivor.old) }
    ensures { heap.new ≡ with_chunks heap.old (followed_large heap.old.chunks survivor) }
{
    if size_at(heap, survivor.old) > SMALL {
        follow_object(heap, survivor.old);
    }
}

// Whether the heap holds only small objects, by its counts.
fn has_small_alone(heap: &Space) -> bool
    ensures { IsTrue result → small_words heap.now.chunks ≡ held_words heap.now.chunks }
{
    let words = heap.words();
    words < u64::MAX && heap.small_words() == words
}

// Updates the references of the large survivors in place. If no object of the heap is large, it looks at none.
fn follow_larges(heap: &mut Space, found: &[Survivor])
    requires { CanBeFollowed heap.old.chunks found.now }
    ensures { heap.new ≡ with_chunks heap.old (fold followed_large heap.old.chunks found.now) }
{
    if has_small_alone(heap) {
        return;
    }
    for &survivor in found {
        follow_if_large(heap, survivor);
    }
}

impl Collector {
    /// Updates the references of all objects of the new chunks.
    pub(crate) fn lead_chunks(&mut self)
        requires { All (λ k. All (HasTargets self.old.heap.chunks) k.cells) self.old.laying.laid }
        ensures { self.new ≡ record self.old { laying = record self.old.laying { laid = map (led_chunk (followed_ref self.old.heap.chunks)) self.old.laying.laid } } }
    {
        follow_chunks(&mut self.laid, &self.heap);
    }

    /// Updates the references of all frames.
    pub(crate) fn lead_frames(&self, frames: &mut Frames)
        requires { All (IsTarget self.now.heap.chunks) (frame_references (frames_of frames.old)) }
        ensures { frames_of frames.new ≡ map (led_frame (followed_ref self.now.heap.chunks)) (frames_of frames.old) }
    {
        follow_frames(frames, &self.heap);
    }

    /// Updates the references of the large survivors in place.
    pub(crate) fn lead_larges(&mut self)
        requires { CanBeFollowed self.old.heap.chunks self.old.found }
        ensures { self.new ≡ record self.old { heap = with_chunks self.old.heap (fold followed_large self.old.heap.chunks self.old.found) } }
    {
        follow_larges(&mut self.heap, &self.found);
    }
}
