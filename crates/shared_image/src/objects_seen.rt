// The objects of the heaps of tasks that don't run, chunk by chunk.

ghost use Rattle.std.specs.Prelude.{◌≡◌, All, IfOk, IfSome, None, [], map};
ghost use Rattle.heap_reading.specs.below.object_layout.{moved_to};
ghost use Rattle.heap_reading.specs.below.core_invariant.{chunk_of};
ghost use Rattle.heap_reading.specs.Image.{objects_of, in_words, AreInWords};

use heap_reading::{Chunk, Listed, SeenObject, is_running, seen_in};
use shared_tree::Shared;
use std::alloc::{AllocError, Global};

// The chunk of a number, if that is in the heap of a task that doesn't run.
fn resting_chunk(shared: &Shared, number: u32) -> Option<&Chunk>
    ensures none { result ≡ None → objects_of shared.now number ≡ [] }
    ensures some { IfSome result (λ k. (chunk_of k.now).objects ≡ objects_of shared.now number) }
    ensures unmoved { IfSome result (λ k. All (λ c. moved_to c.mark ≡ None) k.now.cells) }
{
    shared.stands();
    let owner = shared.pool().slot(number)?.owner;
    if is_running(shared.tree().state(owner)) {
        return None;
    }
    match shared.heaps().task_slots.rest(owner) {
        Some(rest) => rest.heap.chunk(number),
        None => None,
    }
}

/// The objects of a chunk, by ascending address, if its owner doesn't run; otherwise none.
pub(crate) fn objects(
    alloc: Global,
    shared: &Shared,
    chunk: u32,
) -> Result<Listed<SeenObject>, AllocError>
    ensures objects { IfOk result (λ objects. objects ≡ map in_words (objects_of shared.now chunk)) }
    ensures words { IfOk result (λ objects. AreInWords (objects_of shared.now chunk)) }
{
    match resting_chunk(shared, chunk) {
        None => Ok(Listed::new(alloc)),
        Some(chunk) => seen_in(alloc, chunk),
    }
}
