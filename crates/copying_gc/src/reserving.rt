// Reserves what a collection needs.

ghost use Rattle.std.specs.Prelude.{◌≡◌, ◌≤◌, [], vec_capacity, IfOk};
ghost use Rattle.leaf_heap.specs.LeafHeapValue.{with_places};
ghost use Rattle.copying_gc.specs.Survivors.{live_count};
ghost use Rattle.copying_gc.specs.Lists.{HasReservedLists};

use crate::lists::{Moved, ToChunks};
use leaf_heap::LeafHeap;
use std::alloc::{AllocError, Global};

impl ToChunks {
    /// Reserves all lists of a collection of this heap into `chunks` new chunks, and capacity for these chunks in the
    /// heap. The new chunks are then to be pushed onto the result's `chunks`, which has capacity for them.
    pub fn reserve(alloc: Global, heap: &mut LeafHeap, chunks: u32) -> Result<ToChunks, AllocError>
        ensures kept { heap.new ≡ with_places heap.old heap.new.slots heap.new.spare }
        ensures none { IfOk result (λ to. to.chunks.items ≡ []) }
        ensures room { IfOk result (λ to. chunks ≤ vec_capacity to.chunks) }
        ensures reserved { IfOk result (λ to. HasReservedLists heap.new chunks to) }
    {
        let objects = count_objects(heap)?;
        let places = chunks as usize + heap.chunks().len();
        heap.make_room(chunks)?;
        Ok(ToChunks {
            chunks: list_of(alloc, chunks as usize)?,
            lists: Moved {
                moved: list_of(alloc, objects)?,
                taken: 0,
                given: 0,
                left: 0,
                back: list_of(alloc, places)?,
            },
            found: list_of(alloc, objects)?,
            laid: list_of(alloc, places)?,
        })
    }
}

// An empty list with capacity `count`.
fn list_of<T: Drop>(alloc: Global, count: usize) -> Result<Vec<T>, AllocError>
    ensures none { IfOk result (λ v. v.items ≡ []) }
    ensures room { IfOk result (λ v. count ≤ vec_capacity v) }
{
    let mut list = Vec::new(alloc);
    list.reserve(count)?;
    Ok(list)
}

// How many objects the heap has; a saturated count is more than can be reserved.
#[tactic(auto, using(crate::proofs::Needs::live_is_counted))]
fn count_objects(heap: &LeafHeap) -> Result<usize, AllocError>
    ensures { IfOk result (λ n. n ≡ live_count heap.now.chunks) }
{
    let _settled = heap.chunks();
    let objects = heap.objects();
    if objects == u64::MAX {
        return Err(AllocError);
    }
    Ok(objects as usize)
}
