// A whole collection of a heap.

ghost use Rattle.std.specs.Prelude.{◌≡◌, ◌+◌, ◌*◌, ◌≤◌, ◌++◌, length, vec_len, vec_capacity, All};
ghost use Rattle.leaf_heap.specs.LeafHeapValue.{HaveDistinctNumbers, AreTidy, IsFresh, IsSettled};
ghost use Rattle.object_layout.specs.Graph.{HeapIsClosed, IsSoundReference};
ghost use Rattle.object_layout.specs.Cell.{units};
ghost use Rattle.copying_gc.specs.Survivors.{outside};
ghost use Rattle.copying_gc.specs.Laid.{small_words, AreNew};
ghost use Rattle.copying_gc.specs.Exchanged.{counted32};
ghost use Rattle.copying_gc.specs.Lists.{HasReservedLists, IsCollected};

use crate::collector::Collector;
use crate::exchange::{counted, exchange, name_larges, units_of};
use crate::lists::{Moved, ToChunks};
use crate::packed::counts_of_packed;
use crate::sorting::sort;
use io_traits::{Gate, Point};
use leaf_heap::{LeafHeap, Space};
use object_layout::{Addr, Chunk};
use task_frames::Frames;

/// Collects a heap: it keeps exactly what the frames and the roots lead to through the heap, one object for each.
///
/// The small survivors, of at most 1,024 words, are moved into new chunks in order of birth. Large ones stay where they
/// are, and chunks of dropped ones are released. All references of survivors and frames to moved objects are updated to
/// the new addresses. It doesn't allocate, and passes the gate first.
pub fn copy<G: Gate>(
    heap: &mut LeafHeap,
    frames: &mut Frames,
    roots: &[Addr],
    to_chunks: ToChunks,
    gate: &G,
    worker: u32,
    task: u32,
) -> Moved
    requires closed { HeapIsClosed heap.old.chunks }
    requires outside { All (IsSoundReference heap.old.chunks) (outside frames.old roots.now) }
    requires apart { HaveDistinctNumbers to_chunks.chunks.items }
    requires fresh { All (λ k. IsFresh heap.old.chunks k.number) to_chunks.chunks.items }
    requires new { AreNew to_chunks.chunks.items }
    requires enough { 2 * units (small_words heap.old.chunks) ≤ length to_chunks.chunks.items + 1 }
    requires reserved { HasReservedLists heap.old (vec_len to_chunks.chunks) to_chunks }
    ensures { IsCollected heap.old frames.old roots.now to_chunks.chunks.items heap.new frames.new result }
{
    gate.pass(worker, task, Point::AfterBegin);
    let (space, moved) = collect(heap.open(), frames, roots, to_chunks);
    heap.close(space);
    moved
}

// The collection itself.
fn collect(heap: Space, frames: &mut Frames, roots: &[Addr], to_chunks: ToChunks) -> (Space, Moved)
    requires closed { HeapIsClosed heap.chunks }
    requires outside { All (IsSoundReference heap.chunks) (outside frames.old roots.now) }
    requires tidy { AreTidy heap.chunks }
    requires apart { HaveDistinctNumbers (heap.chunks ++ to_chunks.chunks.items) }
    requires new { AreNew to_chunks.chunks.items }
    requires enough { 2 * units (small_words heap.chunks) ≤ length to_chunks.chunks.items + 1 }
    requires reserved { HasReservedLists heap (vec_len to_chunks.chunks) to_chunks }
    ensures collected { IsCollected heap frames.old roots.now to_chunks.chunks.items result.0 frames.new result.1 }
    ensures settled { IsSettled result.0.chunks }
{
    let ToChunks {
        chunks,
        lists,
        found,
        laid,
    } = to_chunks;
    let Moved {
        moved,
        mut back,
        ..
    } = lists;
    let mut collector = Collector::of(heap, found, laid, chunks, moved);
    collector.evacuate(frames, roots);
    let Collector {
        mut heap,
        found,
        laid,
        mut spare,
        mut moved,
        ..
    } = collector;
    sort(&mut moved);
    let taken = count_of(&laid);
    let counts = counts_of_packed(&laid, moved.len());
    let reserved = heap.reserved();
    let are_large = exchange(&mut heap, laid, counts, reserved, &mut back);
    give_rest(&mut back, &mut spare);
    name_larges(&mut heap, &found, are_large);
    heap.reset_since();
    let moved = Moved {
        moved,
        taken,
        given: units_of(&back),
        left: counted(heap.words()),
        back,
    };
    (heap, moved)
}

// Adds the new chunks that weren't opened to those to release.
fn give_rest(back: &mut Vec<Chunk>, spare: &mut Vec<Chunk>)
    requires { vec_len back.old + vec_len spare.old ≤ vec_capacity back.old }
    ensures { back.new.items ≡ back.old.items ++ spare.old.items }
{
    let _ = back.append(spare);
}

// The number of chunks, saturating at 32 bits.
fn count_of(chunks: &[Chunk]) -> u32
    ensures { result ≡ counted32 (length chunks.now) }
{
    counted(chunks.len() as u64)
}
