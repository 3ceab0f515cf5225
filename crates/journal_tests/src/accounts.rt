// The accounts of heaps, with values worked out by hand.

use crate::machines::{Fields, Pair, Row, are, has_lists, heap_of, machine_of, name, names};
use chunk_sizes::units;
use ledger_heaps::{
    are_owned, collect, fresh, is_countable, place, put_last, sweep, take_of, units_in, within,
    words_at, words_in, words_sum,
};
use run_journal::{Heap, Listed, MachineState};
use std::alloc::Global;

// A root and its child: each refers to objects of both.
const FAMILY: &[Row] = &[
    Row {
        parent: None,
        register: Some((0, 1)),
        objects: &[(&[Some((1, 1)), None], 1), (&[None, Some((0, 0))], 1)],
    },
    Row {
        parent: Some(0),
        register: Some((1, 0)),
        objects: &[
            (&[Some((0, 0)), Some((1, 2))], 1),
            (&[None, Some((1, 0))], 1),
            (&[Some((1, 2)), None], 1),
            (&[Some((1, 0)), None], 1),
        ],
    },
];

// The accounts of the two heaps.
fn family_heaps(alloc: Global) -> Option<Listed<Heap>> {
    let root = heap_of(alloc, 0, &[&[1], &[0]], &[])?;
    let child = heap_of(alloc, 1, &[&[2], &[3, 0]], &[1])?;
    let mut heaps = Listed::new(alloc);
    match heaps.push_pair(root, child) {
        Ok(()) => Some(heaps),
        Err(_) => None,
    }
}

// Whether exactly these are reached within a task's heap, in this order.
fn reached(
    alloc: Global,
    machine: &MachineState,
    heaps: &Listed<Heap>,
    task: u32,
    expected: &[Pair],
) -> bool {
    if !are_owned(machine, heaps) {
        return false;
    }
    match within(alloc, machine, heaps, task) {
        Ok(names) => are(names.as_slice(), expected),
        Err(_) => false,
    }
}

// The same for the heap of a task of the family.
fn are_reached(alloc: Global, task: u32, expected: &[Pair]) -> bool {
    let Some(machine) = machine_of(alloc, FAMILY) else {
        return false;
    };
    match family_heaps(alloc) {
        Some(heaps) => reached(alloc, &machine, &heaps, task, expected),
        None => false,
    }
}

#[test]
fn reached_within_heaps(rt: HostRuntime) {
    assert!(rt; are_reached(rt.alloc(), 0, &[(0, 1), (0, 0)]));
    assert!(rt; are_reached(rt.alloc(), 1, &[(1, 2), (1, 0), (1, 1)]));
}

// A lone task with objects of 600, 400, 24, 500, 3,000, 1,025, 2,048 and 10 words, two of each besides the fields.
const LONE: &[Row] = &[Row {
    parent: None,
    register: None,
    objects: OBJECTS,
}];

const OBJECTS: &[Fields] = &[
    (&[], 598),
    (&[], 398),
    (&[], 22),
    (&[], 498),
    (&[], 2998),
    (&[], 1023),
    (&[], 2046),
    (&[], 8),
];

// The account of its heap, in which these objects survive, and these are in the snapshot.
fn lone_heap(alloc: Global, survivors: &[u32], snapshot: &[u32]) -> Option<Heap> {
    let survivors = names(alloc, 0, survivors)?;
    let snapshot = names(alloc, 0, snapshot)?;
    let mut heap = heap_of(alloc, 0, &[&[3, 2], &[0], &[1, 7]], &[5, 4, 6])?;
    heap.survivors = survivors;
    heap.snapshot = snapshot;
    heap.reserved = 4;
    heap.room = 100;
    heap.since = 77;
    heap.begun = Some(3);
    Some(heap)
}

// The words of a heap, its units, the chunks that a collection of it takes, and the words of its large objects, if its
// words are countable.
fn counts(machine: &MachineState, heap: &Heap) -> Option<(u64, u64, u64, u64)> {
    if !is_countable(machine, heap) {
        return None;
    }
    Some((
        words_in(machine, heap),
        units_in(machine, heap),
        take_of(machine, heap),
        words_sum(machine, heap.large.as_slice()),
    ))
}

// The counts of the lone heap.
fn lone_counts(alloc: Global, machine: &MachineState) -> Option<(u64, u64, u64, u64)> {
    let heap = lone_heap(alloc, &[], &[])?;
    counts(machine, &heap)
}

// The same, and the words of an object that exists and of one that doesn't.
fn words(alloc: Global) -> Option<((u64, u64, u64, u64), usize, usize)> {
    let machine = machine_of(alloc, LONE)?;
    let counts = lone_counts(alloc, &machine)?;
    let (there, none) = (
        words_at(&machine, name((0, 4))),
        words_at(&machine, name((0, 8))),
    );
    Some((counts, there, none))
}

#[test]
fn words_and_units(rt: HostRuntime) {
    assert!(rt; words(rt.alloc()) == Some(((7607, 17, 3, 6073), 3000, 0)));
    assert!(rt; units(1024) == 1 && units(1025) == 2);
}

// Collects a heap whose words are countable; returns the units taken and given back, and the words left.
fn collected(alloc: Global, machine: &MachineState, heap: &mut Heap) -> Option<(u64, u64, u64)> {
    if !is_countable(machine, heap) {
        return None;
    }
    let Ok(parts) = collect(alloc, machine, heap) else {
        return None;
    };
    let numbers = (parts.taken, parts.given, parts.left);
    parts.put_into(heap);
    Some(numbers)
}

// Whether the lone heap has exactly its survivors, and its room and its counts are those after a collection.
fn is_collected(heap: &Heap) -> bool {
    has_lists(heap, &[&[(0, 0), (0, 1), (0, 2)], &[(0, 3)]])
        && are(heap.large.as_slice(), &[(0, 5), (0, 6)])
        && (heap.room, heap.since, heap.begun) == (524, 0, None)
}

// What a collection of the lone heap returns, and whether the heap is then the expected one.
fn collection(alloc: Global, machine: &MachineState) -> Option<((u64, u64, u64), bool)> {
    let mut heap = lone_heap(alloc, &[6, 3, 2, 5, 1, 0], &[])?;
    let numbers = collected(alloc, machine, &mut heap)?;
    Some((numbers, is_collected(&heap)))
}

// The same with the machine of the lone task.
fn lone_collection(alloc: Global) -> Option<((u64, u64, u64), bool)> {
    let machine = machine_of(alloc, LONE)?;
    collection(alloc, &machine)
}

#[test]
fn collected_by_birth(rt: HostRuntime) {
    assert!(rt; lone_collection(rt.alloc()) == Some(((2, 7, 4597), true)));
}

// Whether the lone heap has exactly its snapshot. The list filled last is emptied, and the room is 0.
fn is_swept(heap: &Heap) -> bool {
    has_lists(heap, &[&[(0, 2)], &[(0, 0)]])
        && are(heap.large.as_slice(), &[(0, 6)])
        && heap.room == 0
        && heap.since == 77
        && heap.swept
}

// Sweeps a heap whose words are countable; returns the number of units given back.
fn swept(alloc: Global, machine: &MachineState, heap: &mut Heap) -> Option<u64> {
    if !is_countable(machine, heap) {
        return None;
    }
    let Ok(parts) = sweep(alloc, machine, heap) else {
        return None;
    };
    let given = parts.given;
    parts.put_into(heap);
    Some(given)
}

// What a sweep of the lone heap gives back, and whether the heap is then the expected one.
fn sweeping(alloc: Global, machine: &MachineState) -> Option<(u64, bool)> {
    let mut heap = lone_heap(alloc, &[], &[2, 0, 6])?;
    let given = swept(alloc, machine, &mut heap)?;
    Some((given, is_swept(&heap)))
}

// The same with the machine of the lone task.
fn lone_sweeping(alloc: Global) -> Option<(u64, bool)> {
    let machine = machine_of(alloc, LONE)?;
    sweeping(alloc, &machine)
}

#[test]
fn swept_by_snapshot(rt: HostRuntime) {
    assert!(rt; lone_sweeping(rt.alloc()) == Some((6, true)));
}

// Places an object that fills a chunk, a name after it, and a large object, in a heap in which no word counts; returns
// whether all that succeeded.
fn place_three(alloc: Global, heap: &mut Heap) -> bool {
    heap.since = 0;
    place(alloc, heap, name((0, 0)), 1024).is_ok()
        && put_last(alloc, &mut heap.chunks, name((0, 1))).is_ok()
        && place(alloc, heap, name((0, 2)), 1025).is_ok()
}

// Whether the names are where they should be in a heap, and what is reserved, the room, and the words since.
fn placed(alloc: Global) -> Option<(bool, (u32, u32, u64))> {
    let mut heap = fresh(alloc);
    heap.room = 1024;
    heap.reserved = 2;
    if !place_three(alloc, &mut heap) {
        return None;
    }
    let holds = has_lists(&heap, &[&[(0, 0), (0, 1)]]) && are(heap.large.as_slice(), &[(0, 2)]);
    Some((holds, (heap.reserved, heap.room, heap.since)))
}

#[test]
fn objects_are_placed(rt: HostRuntime) {
    assert!(rt; placed(rt.alloc()) == Some((true, (0, 0, 2049))));
}
