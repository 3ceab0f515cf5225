// Collections of heaps that were checked.

ghost use Rattle.std.specs.Prelude.{IsTrue};
ghost use Rattle.collection_tests.specs.Ready.{CanCollect};

use copying_gc::{Moved, ToChunks, copy};
use io_traits::EmptyGate;
use memory_scenes::{
    Addr, CHUNK_WORDS, Chunk, Frames, LeafHeap, is_fit_heap, is_fresh, outside_is_sound,
    small_in_all,
};
use std::alloc::Global;

// Whether the heap, the frames and the roots satisfy the precondition of a collection into one new chunk.
fn is_ready(heap: &LeafHeap, frames: &Frames, roots: &[Addr], number: u32) -> bool
    ensures { IsTrue result → CanCollect heap.now frames.now roots.now number }
{
    let Some(small) = small_in_all(heap.chunks()) else {
        return false;
    };
    if small > CHUNK_WORDS as u32 {
        return false;
    }
    if !is_fit_heap(heap) {
        return false;
    }
    if !outside_is_sound(heap, frames, roots) {
        return false;
    }
    is_fresh(heap.chunks(), number)
}

/// Collects the heap into one new chunk with this number, if the precondition holds.
pub fn collect(
    alloc: Global,
    heap: &mut LeafHeap,
    frames: &mut Frames,
    roots: &[Addr],
    number: u32,
) -> Option<Moved> {
    let Ok(mut to) = ToChunks::reserve(alloc, heap, 1) else {
        return None;
    };
    let Ok(chunk) = Chunk::new(alloc, number, 1) else {
        return None;
    };
    if !is_ready(heap, frames, roots, number) {
        return None;
    }
    to.chunks.push_reserved(chunk);
    Some(copy(heap, frames, roots, to, &EmptyGate, 0, 3))
}
