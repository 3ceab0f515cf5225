// What a leaf collection needs as it begins.

ghost use Rattle.std.specs.Prelude.{◌≡◌, ◌+◌, ◌<◌, ◌≤◌, ◌^◌, ◌↔◌, [], ◌++◌, Err, IfOk, None, OnErr, OnOk, Some, length, map, vec_len};
ghost use Rattle.std.specs.List.Sorted.{IsPermutation};
ghost use Rattle.core_invariant.specs.below.object_layout.{number_of};
ghost use Rattle.core_invariant.specs.below.chunk_pool.{units_in_use, TakesAll};
ghost use Rattle.core_invariant.specs.below.leaf_heap.{with_places};
ghost use Rattle.core_invariant.specs.below.copying_gc.{HasReservedLists};
ghost use Rattle.leaf_collections.specs.LeafBegin.{AreFalling};

use core_invariant::{
    Addr, Begun, BoxedSlot, Chunk, LeafHeap, Listed, NotTaken, Pool, Private, ReservedVec, ToChunks,
};
use std::alloc::{AllocError, Global};

// What a collection needs beside its chunks: a copy of its roots, a list for the numbers of the chunks, a block for both,
// and the lists reserved for copying.
#[derive(Drop)]
struct Prepared {
    roots: Listed<Addr>,
    numbers: ReservedVec<u32>,
    block: BoxedSlot<Begun>,
    to: ToChunks,
}

// A block for what a collection records, without anything.
fn begun_block(alloc: Global) -> Result<BoxedSlot<Begun>, AllocError> {
    let nothing = Begun {
        roots: Listed::new(alloc),
        news: Listed::new(alloc),
    };
    Ok(BoxedSlot::new(alloc, nothing)?)
}

// Allocates all that a collection into `count` chunks needs.
fn prepare(
    alloc: Global,
    roots: &[Addr],
    heap: &mut LeafHeap,
    count: u32,
) -> Result<Prepared, AllocError>
    ensures kept { heap.new ≡ with_places heap.old heap.new.slots heap.new.spare }
    ensures roots { IfOk result (λ q. q.roots ≡ roots.now) }
    ensures none { IfOk result (λ q. q.numbers.items ≡ []) }
    ensures room { IfOk result (λ q. count ≤ q.numbers.room) }
    ensures empty { IfOk result (λ q. q.to.chunks.items ≡ []) }
    ensures reserved { IfOk result (λ q. HasReservedLists heap.new count q.to) }
{
    let block = begun_block(alloc)?;
    let roots = Listed::from_vec(roots.to_vec(alloc)?);
    let mut numbers = ReservedVec::new(alloc);
    numbers.reserve(count as usize)?;
    let to = ToChunks::reserve(alloc, heap, count)?;
    Ok(Prepared {
        roots,
        numbers,
        block,
        to,
    })
}

// Sorts chunks by their numbers, the greatest first.
fn put_falling(chunks: &mut Vec<Chunk>)
    ensures permutation { IsPermutation chunks.old.items chunks.new.items }
    ensures falling { AreFalling chunks.new.items }
{
    chunks.sort_unstable_by_key(|chunk| chunk.number());
    chunks.reverse();
}

// Takes `count` chunks for a task into an empty list, the one with the greatest number first.
fn take_falling(
    pool: &mut Pool,
    task: u32,
    count: u32,
    chunks: &mut Vec<Chunk>,
) -> Result<(), NotTaken>
    requires few { count < 2 ^ 22 }
    requires none { chunks.old.items ≡ [] }
    ensures full { (result ≡ Err NotTaken.Full) ↔ (pool.old.limit < units_in_use pool.old + count) }
    ensures taken { OnOk result (TakesAll pool.old pool.new task count [] chunks.new.items) }
    ensures falling { OnOk result (AreFalling chunks.new.items) }
    ensures err { OnErr result (pool.new ≡ pool.old) }
{
    pool.take_all(task, count, chunks)?;
    put_falling(chunks);
    Ok(())
}

// Records the numbers of chunks.
fn note_numbers(numbers: &mut ReservedVec<u32>, chunks: &[Chunk])
    requires { length chunks.now ≤ numbers.old.room }
    ensures { numbers.new.items ≡ numbers.old.items ++ map number_of chunks.now }
{
    for chunk in chunks {
        numbers.push_reserved(chunk.number());
    }
}

/// Takes `count` chunks for a collection of a part, allocates all that it needs, and begins it with these roots. If an
/// allocation fails, only the spare capacity of the part's heap changes.
///
/// The numbers of the chunks fall. The collection fills the last chunk first, so the numbers of the chunks that it
/// fills rise, and objects are moved to rising addresses. What stays until the next collection is then already sorted
/// in its relocation list, which is made in order of birth.
pub fn begin_with(
    alloc: Global,
    pool: &mut Pool,
    part: &mut Private,
    roots: &[Addr],
    count: u32,
) -> Result<ToChunks, AllocError>
    requires idle { part.old.begun ≡ None }
    requires few { count < 2 ^ 22 }
    requires free { pool.old.limit < units_in_use pool.old + count → ⊥ }
    ensures same { OnErr result (pool.new ≡ pool.old) }
    ensures back { OnErr result (part.new ≡ record part.old { heap = with_places part.old.heap part.new.heap.slots part.new.heap.spare }) }
    ensures taken { IfOk result (λ to. TakesAll pool.old pool.new part.old.task count [] to.chunks.items) }
    ensures falling { IfOk result (λ to. AreFalling to.chunks.items) }
    ensures begun { IfOk result (λ to. part.new ≡ record part.old { heap = with_places part.old.heap part.new.heap.slots part.new.heap.spare; begun = Some (record { roots = roots.now; news = map number_of to.chunks.items }) }) }
    ensures reserved { IfOk result (λ to. HasReservedLists part.new.heap (vec_len to.chunks) to) }
{
    let prepared = prepare(alloc, roots, &mut part.heap, count)?;
    let Prepared {
        roots: kept,
        mut numbers,
        block,
        mut to,
    } = prepared;
    match take_falling(pool, part.task, count, &mut to.chunks) {
        Ok(()) => {}
        Err(NotTaken::NoMemory) => return Err(AllocError),
        Err(NotTaken::Full) => unreachable!(),
    }
    note_numbers(&mut numbers, &to.chunks);
    part.begin_collection(block.put(Begun {
        roots: kept,
        news: numbers.into_listed(),
    }));
    Ok(to)
}
