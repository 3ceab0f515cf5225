// Marking and sweeping of heaps that were checked.

ghost use Rattle.std.specs.Prelude.{All, IfSome, IsSome, IsTrue};
ghost use Rattle.chunk_pool.specs.PoolValue.{slot_at};
ghost use Rattle.mark_sweep_gc.specs.Snapshot.{HeapIsClosed, HasObjectAt};
ghost use Rattle.mark_sweep_gc.specs.MarkingValue.{HasCapacityForAll, IsDone, IsOf};

use crate::cells::is_fit_heap;
use crate::soundness::is_live;
use chunk_pool::Pool;
use leaf_heap::LeafHeap;
use mark_sweep_gc::{Marking, MarkingRoom};
use object_layout::{Addr, CHUNK_WORDS, Chunk};
use std::alloc::Global;

// Whether all references within the heap lead to objects.
fn is_closed(heap: &LeafHeap) -> bool
    ensures { IsTrue result → HeapIsClosed heap.now.chunks }
{
    is_fit_heap(heap)
}

// Whether an object lies there.
fn is_object(heap: &LeafHeap, object: Addr) -> bool
    ensures { IsTrue result → HasObjectAt heap.now.chunks object }
{
    is_live(heap.chunks(), object)
}

// Whether objects lie at all these addresses.
fn are_objects(heap: &LeafHeap, objects: &[Addr]) -> bool
    ensures { IsTrue result → All (HasObjectAt heap.now.chunks) objects.now }
{
    for &object in objects {
        if !is_object(heap, object) {
            return false;
        }
    }
    true
}

// A pool in which the numbers of these chunks are in use, if it gives out exactly these.
fn pool_of(alloc: Global, chunks: &[Chunk]) -> Option<Pool>
    ensures { IfSome result (λ pool. All (λ k. IsSome (slot_at pool k.number)) chunks.now) }
{
    let mut pool = Pool::new(alloc, 1000);
    for chunk in chunks {
        let units = chunk.size() / CHUNK_WORDS as u32;
        if units == 0 {
            return None;
        }
        let Ok(taken) = pool.take(0, units) else {
            return None;
        };
        if taken.number() != chunk.number() {
            return None;
        }
    }
    Some(pool)
}

// Marks n objects at a time until fewer are left; returns the number of calls that marked n.
fn mark_all(marking: &mut Marking, heap: &LeafHeap, kept: &[Addr], step: u32) -> u32
    requires closed { HeapIsClosed heap.now.chunks }
    requires kept { All (HasObjectAt heap.now.chunks) kept.now }
    requires own { IsOf heap.now.chunks kept.now marking.old }
    ensures { IsOf heap.now.chunks kept.now marking.new }
{
    for calls in 0..100u32 {
        if marking.mark_objects(heap, kept, step) < step {
            return calls;
        }
    }
    100
}

// Continues a marking, n objects at a time, until nothing is left to mark; returns the number of calls that marked n.
fn marked(mut marking: Marking, heap: &LeafHeap, kept: &[Addr], step: u32) -> Option<(u32, Marking)>
    requires closed { HeapIsClosed heap.now.chunks }
    requires kept { All (HasObjectAt heap.now.chunks) kept.now }
    requires own { IsOf heap.now.chunks kept.now marking }
    ensures own { IfSome result (λ r. IsOf heap.now.chunks kept.now r.1) }
    ensures done { IfSome result (λ r. IsDone r.1) }
{
    let calls = mark_all(&mut marking, heap, kept, step);
    if marking.ready(kept) {
        Some((calls, marking))
    } else {
        None
    }
}

// Sweeps a heap; returns the number of units given back, if it is the predicted one, and of those then in use.
fn sweep(heap: &mut LeafHeap, pool: &mut Pool, marking: Marking) -> Option<(u32, u32)>
    requires done { IsDone marking }
    requires room { HasCapacityForAll heap.old.chunks marking }
    requires in_use { All (λ k. IsSome (slot_at pool.old k.number)) heap.old.chunks }
{
    let would_give = marking.would_give(heap);
    let given = marking.sweep(heap, pool);
    if given == would_give {
        Some((given, pool.in_use()))
    } else {
        None
    }
}

// Whether all references within a heap lead to objects, and so do these roots and kept references.
fn is_sound(heap: &LeafHeap, roots: &[Addr], kept: &[Addr]) -> bool
    ensures closed { IsTrue result → HeapIsClosed heap.now.chunks }
    ensures roots { IsTrue result → All (HasObjectAt heap.now.chunks) roots.now }
    ensures kept { IsTrue result → All (HasObjectAt heap.now.chunks) kept.now }
{
    is_closed(heap) && are_objects(heap, roots) && are_objects(heap, kept)
}

/// Marks a heap from these roots and kept references, n objects at a time, and sweeps it, if the preconditions hold.
/// Returns the number of calls that marked n, of units given back, and of units then in use.
pub fn mark_and_sweep(
    alloc: Global,
    heap: &mut LeafHeap,
    roots: &[Addr],
    kept: &[Addr],
    step: u32,
) -> Option<(u32, u32, u32)> {
    if !is_sound(heap, roots, kept) {
        return None;
    }
    let Some(mut pool) = pool_of(alloc, heap.chunks()) else {
        return None;
    };
    let Ok(begun) = Marking::begin(alloc, heap, roots) else {
        return None;
    };
    match marked(begun, heap, kept, step) {
        Some((calls, marking)) => match sweep(heap, &mut pool, marking) {
            Some((given, in_use)) => Some((calls, given, in_use)),
            None => None,
        },
        None => None,
    }
}

// Marks a heap from these roots and sweeps it, with this scratch space, if the preconditions hold. Returns the scratch
// space, and the number of objects marked.
fn mark_and_sweep_in(
    alloc: Global,
    room: MarkingRoom,
    heap: &mut LeafHeap,
    roots: &[Addr],
) -> Option<(MarkingRoom, usize)> {
    if !is_sound(heap, roots, &[]) {
        return None;
    }
    let Some(mut pool) = pool_of(alloc, heap.chunks()) else {
        return None;
    };
    let Ok(begun) = Marking::begin_in(room, heap, roots) else {
        return None;
    };
    match marked(begun, heap, &[], 64) {
        Some((_, marking)) => {
            let objects = marking.marked();
            let (_, room) = marking.sweep_keeping(heap, &mut pool);
            Some((room, objects))
        }
        None => None,
    }
}

/// Marks a heap from the first roots and sweeps it, and then from others, both with one scratch space, if the
/// preconditions hold. Returns the number of objects marked each time.
pub fn mark_and_sweep_twice(
    alloc: Global,
    heap: &mut LeafHeap,
    first: &[Addr],
    second: &[Addr],
) -> Option<(usize, usize)> {
    let room = MarkingRoom::new(alloc);
    let (room, before) = mark_and_sweep_in(alloc, room, heap, first)?;
    let (_, after) = mark_and_sweep_in(alloc, room, heap, second)?;
    Some((before, after))
}
