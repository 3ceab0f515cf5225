// Pools for tests. Each call checks its preconditions.

use crate::soundness::is_fresh;
use chunk_pool::{NotTaken, Pool};
use leaf_heap::LeafHeap;

/// Takes a chunk of n units for this owner, and drops it: its number stays in use.
pub fn take(pool: &mut Pool, owner: u32, units: u32) -> Option<u32> {
    if units == 0 || units > 1000 {
        return None;
    }
    match pool.take(owner, units) {
        Ok(chunk) => Some(chunk.number()),
        Err(_) => None,
    }
}

/// Takes a chunk of n units and returns it: the number it had, and its words.
pub fn take_and_give(pool: &mut Pool, units: u32) -> Option<(u32, u32)> {
    if units == 0 || units > 1000 {
        return None;
    }
    let Ok(chunk) = pool.take(0, units) else {
        return None;
    };
    let (number, size) = (chunk.number(), chunk.size());
    if pool.slot(number).is_none() {
        return None;
    }
    pool.give(chunk);
    Some((number, size))
}

/// Whether n units are more than are left.
pub fn is_full(pool: &mut Pool, units: u32) -> bool {
    0 < units && units <= 1000 && matches!(pool.take(0, units), Err(NotTaken::Full))
}

/// The owner of a number, if it is in use.
pub fn owner(pool: &Pool, number: u32) -> Option<u32> {
    if pool.slot(number).is_none() {
        return None;
    }
    Some(pool.owner(number))
}

/// Gives a number another owner, if it is in use.
pub fn relabel(pool: &mut Pool, number: u32, owner: u32) {
    if pool.slot(number).is_some() {
        pool.relabel(number, owner);
    }
}

/// Adds a chunk of one unit to the heap of its owner; returns its number.
pub fn add_taken(pool: &mut Pool, heap: &mut LeafHeap, owner: u32) -> Option<u32> {
    let Ok(chunk) = pool.take(owner, 1) else {
        return None;
    };
    let number = chunk.number();
    if is_fresh(heap.chunks(), number) && heap.add(chunk).is_ok() {
        Some(number)
    } else {
        None
    }
}
