// Whether references within a heap lead to objects, and the words of the small objects.

ghost use Rattle.std.specs.Prelude.{◌≡◌, All, IfSome, IsTrue};
ghost use Rattle.object_layout.specs.Cell.{IsBorn};
ghost use Rattle.object_layout.specs.Place.{cell_at, IsCellAt};
ghost use Rattle.copying_gc.specs.Survivors.{HeapIsClosed, IsSoundReference};
ghost use Rattle.copying_gc.specs.Laid.{small_in, small_words};
ghost use Rattle.memory_scenes.specs.Fit.{HasSoundReferences};

use crate::soundness::is_sound;
use leaf_heap::LeafHeap;
use object_layout::{CHUNK_WORDS, Chunk, header_at, is_born_at, next_at, ref_at};

// Whether each reference of the object there leads to an object.
fn leads_to_objects(heap: &LeafHeap, chunk: &Chunk, at: u32) -> bool
    requires { IsBorn (cell_at chunk.now.cells at).mark }
    ensures { IsTrue result → All (IsSoundReference heap.now.chunks) (cell_at chunk.now.cells at).refs }
{
    let header = header_at(chunk, at);
    for field in 0..header.nrefs {
        if !is_sound(heap, ref_at(chunk, at, field)) {
            return false;
        }
    }
    true
}

// Whether what lies there is no object, or one whose references all lead to objects.
fn is_fit(heap: &LeafHeap, chunk: &Chunk, at: u32) -> bool
    requires { IsCellAt chunk.now.cells at }
    ensures { IsTrue result → HasSoundReferences heap.now.chunks (cell_at chunk.now.cells at) }
{
    !is_born_at(chunk, at) || leads_to_objects(heap, chunk, at)
}

// Whether everything in a chunk is.
fn is_fit_chunk(heap: &LeafHeap, chunk: &Chunk) -> bool
    ensures { IsTrue result → All (HasSoundReferences heap.now.chunks) chunk.now.cells }
{
    let used = chunk.used();
    let mut at = 0;
    while at < used {
        if !is_fit(heap, chunk, at) {
            return false;
        }
        at = next_at(chunk, at);
    }
    true
}

/// Whether all references within the heap lead to objects.
pub fn is_fit_heap(heap: &LeafHeap) -> bool
    ensures { IsTrue result → HeapIsClosed heap.now.chunks }
{
    for chunk in heap.chunks() {
        if !is_fit_chunk(heap, chunk) {
            return false;
        }
    }
    true
}

// The words of the small objects of a chunk.
fn small_in_chunk(chunk: &Chunk) -> u32
    ensures { result ≡ small_in chunk.now.cells }
{
    let used = chunk.used();
    let mut at = 0;
    let mut words = 0;
    while at < used {
        let next = next_at(chunk, at);
        if is_born_at(chunk, at) && next - at <= CHUNK_WORDS as u32 {
            words += next - at;
        }
        at = next;
    }
    words
}

/// The words of the small objects of these chunks; None if the number doesn't fit in 32 bits.
pub fn small_in_all(chunks: &[Chunk]) -> Option<u32>
    ensures { IfSome result (λ n. n ≡ small_words chunks.now) }
{
    match chunks.split_first() {
        None => Some(0),
        Some((first, rest)) => small_in_all(rest)?.checked_add(small_in_chunk(first)),
    }
}
