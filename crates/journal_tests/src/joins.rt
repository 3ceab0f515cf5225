// A join, in the accounts of heaps.

ghost use Rattle.std.specs.Prelude.{◌≤◌, ◌↔◌, IsTrue};
ghost use Rattle.ledger_heaps.specs.Accounts.{since_at};

use crate::machines::{are, has_lists, heap_of};
use ledger_heaps::join;
use run_journal::{Heap, Listed};
use std::alloc::Global;

// The account of a heap before a join: a list of one name, a large name, the room and the words since.
fn joining(alloc: Global, task: u32, since: u32) -> Option<Heap> {
    let mut heap = heap_of(alloc, task, &[&[0]], &[1])?;
    heap.room = since;
    heap.since = since as u64;
    heap.worker = Some(task);
    Some(heap)
}

// Adds such an account; returns whether that succeeded.
fn add_joining(alloc: Global, heaps: &mut Listed<Heap>, task: u32, since: u32) -> bool {
    match joining(alloc, task, since) {
        Some(heap) => heaps.push(heap).is_ok(),
        None => false,
    }
}

// Whether few words were allocated in a task's heap since its last leaf collection.
fn has_few_since(heaps: &Listed<Heap>, task: u32) -> bool
    ensures { IsTrue result ↔ (since_at heaps.now task ≤ 1000) }
{
    match heaps.get(task as usize) {
        Some(heap) => heap.since <= 1000,
        None => true,
    }
}

// Joins the tasks 1 and 2 with their parent 0; returns whether that succeeded.
fn join_three(alloc: Global, heaps: &mut Listed<Heap>) -> bool {
    if heaps.len() != 3 || !has_few_since(heaps, 0) {
        return false;
    }
    if !has_few_since(heaps, 1) || !has_few_since(heaps, 2) {
        return false;
    }
    join(alloc, heaps, 0, 1).is_ok()
}

// Whether the parent has what was the children's, before its own.
fn is_parent(heap: &Heap) -> bool {
    has_lists(heap, &[&[(1, 0)], &[(2, 0)], &[(0, 0)]])
        && are(heap.large.as_slice(), &[(1, 1), (2, 1), (0, 1)])
        && (heap.room, heap.since, heap.worker) == (5, 35, Some(0))
}

// Whether nothing is left of a child.
fn is_empty(heap: &Heap) -> bool {
    (heap.chunks.len(), heap.since, heap.worker) == (0, 0, None)
}

// Whether the heaps are then the expected ones.
fn are_joined(heaps: &Listed<Heap>) -> bool {
    match (heaps.get(0), heaps.get(2)) {
        (Some(parent), Some(right)) => is_parent(parent) && is_empty(right),
        _ => false,
    }
}

// The same for three new heaps that are joined.
fn three_are_joined(alloc: Global) -> bool {
    let mut heaps = Listed::new(alloc);
    add_joining(alloc, &mut heaps, 0, 5)
        && add_joining(alloc, &mut heaps, 1, 10)
        && add_joining(alloc, &mut heaps, 2, 20)
        && join_three(alloc, &mut heaps)
        && are_joined(&heaps)
}

#[test]
fn children_join(rt: HostRuntime) {
    assert!(rt; three_are_joined(rt.alloc()));
}
