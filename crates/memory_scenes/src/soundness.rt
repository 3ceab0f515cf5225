// Whether references lead to objects.

ghost use Rattle.std.specs.Prelude.{IsTrue, map, All};
ghost use Rattle.object_layout.specs.Cell.{IsBorn};
ghost use Rattle.object_layout.specs.Place.{cell_at, IsCellAt};
ghost use Rattle.task_frames.specs.FramesValue.{frames_of};
ghost use Rattle.leaf_heap.specs.LeafHeapValue.{IsFresh};
ghost use Rattle.copying_gc.specs.Survivors.{as_reference, frame_references, outside, HasObjectAt, IsSoundReference};

use leaf_heap::LeafHeap;
use object_layout::{Addr, CHUNK_WORDS, Chunk, is_born_at, next_at};
use task_frames::Frames;

// Whether an object or a hole begins at an offset.
fn begins_at(chunk: &Chunk, offset: u32) -> bool
    ensures { IsTrue result → IsCellAt chunk.now.cells offset }
{
    let used = chunk.used();
    let mut at = 0;
    while at < used {
        if at == offset {
            return true;
        }
        at = next_at(chunk, at);
    }
    false
}

// Whether an object that bears its birth name lies at an offset.
fn is_born_in(chunk: &Chunk, offset: u32) -> bool
    ensures { IsTrue result → IsBorn (cell_at chunk.now.cells offset).mark }
{
    begins_at(chunk, offset) && is_born_at(chunk, offset)
}

/// Whether an object that bears its birth name lies at an address of these chunks.
pub fn is_live(chunks: &[Chunk], object: Addr) -> bool
    ensures { IsTrue result → HasObjectAt chunks.now object }
{
    match chunks.split_first() {
        None => false,
        Some((first, rest)) => {
            if first.number() == object.chunk {
                is_born_in(first, object.offset)
            } else {
                is_live(rest, object)
            }
        }
    }
}

/// Whether a reference into the heap leads to an object there.
pub fn is_sound(heap: &LeafHeap, reference: Option<Addr>) -> bool
    ensures { IsTrue result → IsSoundReference heap.now.chunks reference }
{
    match reference {
        None => true,
        Some(to) => !heap.owns(to) || to.offset < CHUNK_WORDS as u32 && is_live(heap.chunks(), to),
    }
}

// The same for each of these.
fn are_sound(heap: &LeafHeap, references: &[Option<Addr>]) -> bool
    ensures { IsTrue result → All (IsSoundReference heap.now.chunks) references.now }
{
    for &reference in references {
        if !is_sound(heap, reference) {
            return false;
        }
    }
    true
}

// The same for each root.
fn roots_are_sound(heap: &LeafHeap, roots: &[Addr]) -> bool
    ensures { IsTrue result → All (IsSoundReference heap.now.chunks) (map as_reference roots.now) }
{
    for &root in roots {
        if !is_sound(heap, Some(root)) {
            return false;
        }
    }
    true
}

// The same for each reference that a frame holds.
fn frames_are_sound(heap: &LeafHeap, frames: &Frames) -> bool
    ensures { IsTrue result → All (IsSoundReference heap.now.chunks) (frame_references (frames_of frames.now)) }
{
    for frame in 0..frames.depth() {
        if !are_sound(heap, &frames.references_in(frame)) {
            return false;
        }
    }
    true
}

/// Whether all references from outside into the heap lead to objects there.
pub fn outside_is_sound(heap: &LeafHeap, frames: &Frames, roots: &[Addr]) -> bool
    ensures { IsTrue result → All (IsSoundReference heap.now.chunks) (outside frames.now roots.now) }
{
    if !frames_are_sound(heap, frames) {
        return false;
    }
    roots_are_sound(heap, roots)
}

/// Whether no chunk has this number.
pub fn is_fresh(chunks: &[Chunk], number: u32) -> bool
    ensures { IsTrue result → IsFresh chunks.now number }
{
    match chunks.split_first() {
        None => true,
        Some((first, rest)) => first.number() != number && is_fresh(rest, number),
    }
}
