// Collections of whole heaps.

use crate::collecting::collect;
use copying_gc::Moved;
use memory_scenes::{Addr, Frames, LeafHeap, Put, Seen, Spot, at_spot, heap_of, holds, one_frame};
use std::alloc::Global;

// A heap, the references to its objects, and the result of a collection into chunk 20.
struct Case {
    heap: &'static [Put],
    registers: &'static [(u32, Spot)],
    root: Option<Spot>,
    // The number of new chunks kept, of units given back, and of words left.
    counts: (u32, u32, u32),
    // The old and the new addresses.
    moved: &'static [(Spot, Spot)],
    registers_after: &'static [(u32, Spot)],
    objects_after: &'static [Seen],
    // The words left in the chunk that is being filled.
    room: u32,
}

// A frame with these references.
fn frame_of(alloc: Global, registers: &[(u32, Spot)]) -> Option<Frames> {
    let mut frames = one_frame(alloc)?;
    for &(register, spot) in registers {
        if register < 16 {
            frames.set_reference(register, Some(at_spot(spot)));
        }
    }
    Some(frames)
}

fn has_registers(frames: &Frames, registers: &[(u32, Spot)]) -> bool {
    for &(register, spot) in registers {
        if register >= 16 || frames.reference(register) != Some(at_spot(spot)) {
            return false;
        }
    }
    true
}

fn are_moves(moved: &[(Addr, Addr)], expected: &[(Spot, Spot)]) -> bool {
    if moved.len() != expected.len() {
        return false;
    }
    for (i, &(old, new)) in expected.iter().enumerate() {
        if moved.get(i).copied() != Some((at_spot(old), at_spot(new))) {
            return false;
        }
    }
    true
}

// Whether a collection counted and moved as expected.
fn is_told(moved: &Moved, case: &Case) -> bool {
    (moved.taken, moved.given, moved.left) == case.counts
        && are_moves(moved.moved.as_slice(), case.moved)
}

// Whether a collection of the heap counts and moves as expected.
fn is_collected(alloc: Global, heap: &mut LeafHeap, frames: &mut Frames, case: &Case) -> bool {
    let roots = case.root.map(at_spot);
    match collect(alloc, heap, frames, roots.as_slice(), 20) {
        Some(moved) => is_told(&moved, case),
        None => false,
    }
}

// Whether the frame and the heap are then the expected ones.
fn is_left(heap: &LeafHeap, frames: &Frames, case: &Case) -> bool {
    has_registers(frames, case.registers_after)
        && holds(heap, case.objects_after)
        && (heap.since(), heap.room()) == (0, case.room)
}

// Both for a case; None if out of memory.
fn outcome(alloc: Global, case: &Case) -> Option<(bool, bool)> {
    let mut heap = heap_of(alloc, case.heap)?;
    let mut frames = frame_of(alloc, case.registers)?;
    let collected = is_collected(alloc, &mut heap, &mut frames, case);
    Some((collected, is_left(&heap, &frames, case)))
}

// An object that refers to itself, and to which two registers refer, is copied once. The one before it is dropped.
const REFERS_TO_ITSELF: Case = Case {
    heap: &[
        Put::Chunk(7, 1),
        Put::Object(0, 5, 0),
        Put::Object(1, 0, 1),
        Put::Lead((7, 7), (7, 7)),
    ],
    registers: &[(0, (7, 7)), (5, (7, 7))],
    root: None,
    counts: (1, 1, 3),
    moved: &[((7, 7), (20, 0))],
    registers_after: &[(0, (20, 0)), (5, (20, 0))],
    objects_after: &[((20, 0), 1, Some((20, 0)))],
    room: 1021,
};

// Survivors are laid out in order of birth: one reached from a register, and one from a root.
const OUT_OF_ORDER: Case = Case {
    heap: &[Put::Chunk(7, 1), Put::Object(1, 0, 9), Put::Object(1, 1, 4)],
    registers: &[(0, (7, 0))],
    root: Some((7, 3)),
    counts: (1, 1, 7),
    moved: &[((7, 0), (20, 4)), ((7, 3), (20, 0))],
    registers_after: &[(0, (20, 4))],
    objects_after: &[((20, 0), 4, None), ((20, 4), 9, None)],
    room: 1017,
};

// Of two large objects one stays, with its reference to a moved object updated; the other is given back. The reserved
// chunk stays.
const LARGE_OBJECTS: Case = Case {
    heap: &[
        Put::Chunk(7, 1),
        Put::Object(1, 0, 0),
        Put::Chunk(8, 2),
        Put::Object(0, 1500, 1),
        Put::Chunk(9, 3),
        Put::Object(1, 3000, 2),
        Put::Chunk(10, 2),
        Put::Lead((9, 0), (7, 0)),
        Put::Lead((7, 0), (9, 0)),
    ],
    registers: &[(3, (9, 0))],
    root: None,
    counts: (1, 3, 3006),
    moved: &[((7, 0), (20, 0))],
    registers_after: &[(3, (9, 0))],
    objects_after: &[((9, 0), 2, Some((20, 0))), ((20, 0), 0, Some((9, 0)))],
    room: 1021,
};

const CASES: &[Case] = &[REFERS_TO_ITSELF, OUT_OF_ORDER, LARGE_OBJECTS];

#[test]
fn what_survives(rt: HostRuntime) {
    for case in CASES {
        assert!(rt; outcome(rt.alloc(), case) == Some((true, true)));
    }
}
