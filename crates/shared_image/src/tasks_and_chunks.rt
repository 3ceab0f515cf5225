// Which tasks haven't joined, and which chunks are in use.

ghost use Rattle.std.specs.Prelude.{◌≡◌, IfOk, IfSome, None};
ghost use Rattle.heap_reading.specs.below.hh_model.{owner_of};
ghost use Rattle.heap_reading.specs.below.chunk_pool.{AreChunks};
ghost use Rattle.heap_reading.specs.below.core_invariant.{accounts};
ghost use Rattle.heap_reading.specs.Image.{AreAll, InUseBefore, IsInUse, IsLive, LiveBefore};

use heap_reading::{CHUNK_WORDS, InUse, Listed, LiveTask, live_in};
use shared_tree::{Shared, is_joined};
use std::alloc::{AllocError, Global};

/// The tasks that haven't joined, by ascending number.
pub(crate) fn live(alloc: Global, shared: &Shared) -> Result<Listed<LiveTask>, AllocError>
    ensures { IfOk result (λ tasks. AreAll LiveBefore (IsLive shared.now) tasks) }
{
    live_in(alloc, shared.tree())
}

// The task itself, followed to its parent as long as it has joined.
fn owner_now(shared: &Shared, task: u32) -> u32
    ensures { result ≡ owner_of (accounts shared.now).machine.tasks task }
{
    shared.stands();
    let tree = shared.tree();
    let mut owner = task;
    while is_joined(tree.state(owner)) {
        let Some(parent) = tree.parent(owner) else {
            unreachable!()
        };
        owner = parent;
    }
    owner
}

// The chunk of a number, if that is in use.
fn chunk_in_use(shared: &Shared, number: usize) -> Option<InUse>
    requires { AreChunks shared.now.pool.slots }
    ensures there { IfSome result (λ c. IsInUse shared.now c) }
    ensures number { IfSome result (λ c. c.number ≡ number) }
    ensures none { result ≡ None → (c : InUse) → c.number ≡ number → IsInUse shared.now c → ⊥ }
{
    let Ok(number) = u32::try_from(number) else {
        return None;
    };
    match shared.pool().slot(number) {
        None => None,
        Some(held) => Some(InUse {
            number,
            owner: owner_now(shared, held.owner),
            words: CHUNK_WORDS * held.units as u64,
        }),
    }
}

/// The chunks in use, by ascending number. Each has a number of 32 bits, and at least one unit of 1,024 words.
pub(crate) fn chunk_list(alloc: Global, shared: &Shared) -> Result<Listed<InUse>, AllocError>
    ensures all { IfOk result (λ chunks. AreAll InUseBefore (IsInUse shared.now) chunks) }
    ensures sized { AreChunks shared.now.pool.slots }
{
    let mut chunks = Listed::new(alloc);
    for number in 0..shared.pool().numbers() {
        if let Some(chunk) = chunk_in_use(shared, number) {
            chunks.push(chunk)?;
        }
    }
    Ok(chunks)
}
