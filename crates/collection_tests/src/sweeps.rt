// Marking and sweeping of whole heaps.

use crate::collecting::collect;
use memory_scenes::{
    Addr, LeafHeap, Put, Seen, Spot, at, at_spot, heap_of, holds, mark_and_sweep,
    mark_and_sweep_twice, one_frame,
};
use std::alloc::Global;

// A heap, and the result of marking from a root and an overwritten reference, n objects at a time, and a sweep of it.
struct Case {
    heap: &'static [Put],
    root: Spot,
    kept: Option<Spot>,
    step: u32,
    // The number of calls that marked n objects, of units given back, and of units in use.
    swept: (u32, u32, u32),
    objects_after: &'static [Seen],
    // The chunks, the words, the words left in the chunk that is being filled, and which chunk is reserved.
    left: (usize, u64, u32, Option<usize>),
}

// Whether the heap is then the expected one.
fn is_left(heap: &LeafHeap, case: &Case) -> bool {
    let chunks = heap.chunks().len();
    let left = (chunks, heap.words(), heap.room(), heap.reserved());
    left == case.left && holds(heap, case.objects_after)
}

// Whether marking and sweeping the heap has the expected result.
fn is_swept(alloc: Global, heap: &mut LeafHeap, case: &Case) -> bool {
    let kept = case.kept.map(at_spot);
    let root = [at_spot(case.root)];
    let told = mark_and_sweep(alloc, heap, &root, kept.as_slice(), case.step);
    told == Some(case.swept) && is_left(heap, case)
}

// The heap after the sweep, if it is the expected one.
fn swept(alloc: Global, case: &Case) -> Option<LeafHeap> {
    let mut heap = heap_of(alloc, case.heap)?;
    if is_swept(alloc, &mut heap, case) {
        Some(heap)
    } else {
        None
    }
}

// Between two objects a hole is left.
const HOLE: Case = Case {
    heap: &[
        Put::Chunk(0, 1),
        Put::Object(1, 0, 0),
        Put::Object(0, 1, 1),
        Put::Object(0, 2, 2),
        Put::Lead((0, 0), (0, 6)),
    ],
    root: (0, 0),
    kept: None,
    step: 1,
    swept: (2, 0, 1),
    objects_after: &[((0, 0), 0, Some((0, 6))), ((0, 6), 2, None)],
    left: (1, 7, 1014, None),
};

// The counts of a collection of such a heap.
fn collected(alloc: Global, heap: &mut LeafHeap) -> Option<(u32, u32, u32)> {
    let mut frames = one_frame(alloc)?;
    frames.set_reference(0, Some(at(0, 0)));
    let moved = collect(alloc, heap, &mut frames, &[], 20)?;
    Some((moved.taken, moved.given, moved.left))
}

const COLLECTED: &[Seen] = &[((20, 0), 0, Some((20, 3))), ((20, 3), 2, None)];

// The words placed before a collection, its counts, and whether the heap then has exactly the expected objects.
fn with_hole(alloc: Global, heap: &mut LeafHeap) -> Option<(u64, (u32, u32, u32), bool)> {
    let since = heap.since();
    let counts = collected(alloc, heap)?;
    Some((since, counts, holds(heap, COLLECTED)))
}

// The same for a heap with a hole.
fn collected_with_hole(alloc: Global) -> Option<(u64, (u32, u32, u32), bool)> {
    let mut heap = swept(alloc, &HOLE)?;
    with_hole(alloc, &mut heap)
}

// Then the heap is collected.
#[test]
fn a_hole_is_left(rt: HostRuntime) {
    assert!(rt; collected_with_hole(rt.alloc()) == Some((10, (1, 1, 7), true)));
}

// A reference that was overwritten before the marking began is kept, and its object with it.
const KEPT: Case = Case {
    heap: OVERWRITTEN,
    root: (0, 0),
    kept: Some((0, 3)),
    step: 64,
    swept: (0, 0, 1),
    objects_after: &[((0, 0), 0, Some((0, 0))), ((0, 3), 1, None)],
    left: (1, 6, 1018, None),
};

const NOT_KEPT: Case = Case {
    heap: OVERWRITTEN,
    root: (0, 0),
    kept: None,
    step: 64,
    swept: (0, 0, 1),
    objects_after: &[((0, 0), 0, Some((0, 0)))],
    left: (1, 3, 1018, None),
};

const OVERWRITTEN: &[Put] = &[
    Put::Chunk(0, 1),
    Put::Object(1, 0, 0),
    Put::Object(0, 1, 1),
    Put::Lead((0, 0), (0, 3)),
    Put::Lead((0, 0), (0, 0)),
];

// Of two large objects one stays; the three units of the other are given back. The reserved chunk stays, and the chunk
// that was being filled goes.
const LARGE_OBJECTS: Case = Case {
    heap: &[
        Put::Chunk(0, 3),
        Put::Object(0, 3000, 1),
        Put::Chunk(1, 2),
        Put::Object(0, 1500, 2),
        Put::Chunk(2, 1),
        Put::Object(0, 1, 0),
        Put::Chunk(3, 2),
    ],
    root: (1, 0),
    kept: None,
    step: 64,
    swept: (0, 4, 4),
    objects_after: &[((1, 0), 2, None)],
    left: (2, 1502, 0, Some(1)),
};

const CASES: &[Case] = &[KEPT, NOT_KEPT, LARGE_OBJECTS];

#[test]
fn what_is_kept(rt: HostRuntime) {
    for case in CASES {
        assert!(rt; swept(rt.alloc(), case).is_some());
    }
}

// A heap of three objects is marked and swept twice, from two roots and then from one or none. The number of objects
// marked each time, and what is left.
struct Twice {
    first: (Spot, Spot),
    second: Option<Spot>,
    marked: (usize, usize),
    left: &'static [Seen],
}

// The scratch space is cleared whole, and object by object.
const TWICE: &[Twice] = &[
    Twice {
        first: ((0, 0), (0, 3)),
        second: Some((0, 0)),
        marked: (2, 1),
        left: &[((0, 0), 0, None)],
    },
    Twice {
        first: ((0, 0), (0, 0)),
        second: None,
        marked: (1, 0),
        left: &[],
    },
];

const THREE: &[Put] = &[
    Put::Chunk(0, 1),
    Put::Object(0, 1, 0),
    Put::Object(0, 1, 1),
    Put::Object(0, 1, 2),
];

// Whether the heap is left so with one scratch space.
fn is_left_by_one(alloc: Global, case: &Twice, first: &[Addr], second: &[Addr]) -> bool {
    let Some(mut heap) = heap_of(alloc, THREE) else {
        return false;
    };
    let marked = mark_and_sweep_twice(alloc, &mut heap, first, second);
    marked == Some(case.marked) && holds(&heap, case.left)
}

// Whether it is left so if each marking has its own scratch space.
fn is_left_by_two(alloc: Global, case: &Twice, first: &[Addr], second: &[Addr]) -> bool {
    let Some(mut heap) = heap_of(alloc, THREE) else {
        return false;
    };
    mark_and_sweep(alloc, &mut heap, first, &[], 64).is_some()
        && mark_and_sweep(alloc, &mut heap, second, &[], 64).is_some()
        && holds(&heap, case.left)
}

#[test]
fn a_room_serves_twice(rt: HostRuntime) {
    for case in TWICE {
        let first = [at_spot(case.first.0), at_spot(case.first.1)];
        let second = case.second.map(at_spot);
        assert!(rt; is_left_by_one(rt.alloc(), case, &first, second.as_slice()));
        assert!(rt; is_left_by_two(rt.alloc(), case, &first, second.as_slice()));
    }
}
