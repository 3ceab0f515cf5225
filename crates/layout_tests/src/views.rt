// What tasks see of the heaps of their ancestors.

use heap_tree::Tree;
use join_scenes::forked;
use leaf_heap::{LeafHeap, View};
use memory_scenes::{
    Put, Spot, at, at_spot, freeze, heap_of, mark_and_sweep, one_frame, place_kind, set_number,
};
use object_layout::{Addr, Header};
use std::alloc::Global;

// An object with a reference to another one, and a number. The other one's number can be written.
const UPPER: [Put; 4] = [
    Put::Chunk(5, 1),
    Put::Object(1, 1, 0),
    Put::Object(0, 2, 1),
    Put::Lead((5, 0), (5, 4)),
];

// The heap of these, with a number in the first object, which is immutable.
fn frozen_heap(alloc: Global, all: &[Put], object: Addr, number: i64) -> Option<LeafHeap> {
    let mut heap = heap_of(alloc, all)?;
    if set_number(&mut heap, object, 0, number) && freeze(&mut heap, object) {
        Some(heap)
    } else {
        None
    }
}

fn upper(alloc: Global) -> Option<LeafHeap> {
    frozen_heap(alloc, &UPPER, at(5, 0), 7)
}

// What children see of this heap, whose task sees the upper one.
fn seen_below(alloc: Global, heap: &LeafHeap) -> Option<View> {
    let above = upper(alloc)?.view(None).ok()?;
    heap.view(Some(&above)).ok()
}

// What they see of a heap with the number 8 in its one object, which is immutable.
fn two_levels(alloc: Global) -> Option<View> {
    let own = frozen_heap(
        alloc,
        &[Put::Chunk(6, 1), Put::Object(0, 1, 0)],
        at(6, 0),
        8,
    )?;
    seen_below(alloc, &own)
}

// What they see of a heap with an empty chunk of the upper heap's number.
fn hidden(alloc: Global) -> Option<View> {
    seen_below(alloc, &heap_of(alloc, &[Put::Chunk(5, 1)])?)
}

// A number, or a reference, that a view shows.
fn shown_int(view: &View, object: Addr, field: u32) -> Option<i64> {
    let header = view.find(object)?;
    if field < header.nints {
        Some(view.int_at(object, field))
    } else {
        None
    }
}

fn shown_ref(view: &View, object: Addr, field: u32) -> Option<Option<Addr>> {
    let header = view.find(object)?;
    if field < header.nrefs {
        Some(view.ref_at(object, field))
    } else {
        None
    }
}

// The kinds of what is shown at four addresses of the upper heap, and the reference and the numbers of both heaps'
// objects.
type Sight = ([Option<Header>; 4], Option<Option<Addr>>, [Option<i64>; 2]);

fn sight(view: &View) -> Sight {
    (
        [
            view.find(at(5, 0)),
            view.find(at(5, 1)),
            view.find(at(5, 4)),
            view.find(at(7, 0)),
        ],
        shown_ref(view, at(5, 0), 0),
        [shown_int(view, at(5, 0), 0), shown_int(view, at(6, 0), 0)],
    )
}

fn sight_of(view: Option<View>) -> Option<Sight> {
    Some(sight(&view?))
}

const FIRST: Header = Header {
    nrefs: 1,
    nints: 1,
    mutable: false,
};

const KINDS: [Option<Header>; 4] = [Some(FIRST), None, None, None];

#[test]
fn immutable_objects_are_seen(rt: HostRuntime) {
    let alloc = rt.alloc();
    let seen = Some((KINDS, Some(Some(at(5, 4))), [Some(7), Some(8)]));
    assert!(rt; sight_of(two_levels(alloc)) == seen);
}

// The nearest heap that has the chunk decides.
#[test]
fn nearer_chunks_hide_others(rt: HostRuntime) {
    assert!(rt; sight_of(hidden(rt.alloc())) == Some(([None; 4], None, [None; 2])));
}

// The numbers that the two children of the root see, whose heap is the upper one.
fn seen_by_children(alloc: Global) -> Option<(Option<i64>, Option<i64>)> {
    let mut tree = Tree::new(alloc).ok()?;
    let heap = upper(alloc)?;
    let top = one_frame(alloc)?;
    let (left, right) = forked(alloc, &mut tree, 0, &heap, None, &top)?;
    Some((
        shown_int(&left.view, at(5, 0), 0),
        shown_int(&right.view, at(5, 0), 0),
    ))
}

#[test]
fn children_see_their_parents_heap(rt: HostRuntime) {
    assert!(rt; seen_by_children(rt.alloc()) == Some((Some(7), Some(7))));
}

// What may happen to a heap between two views of it.
#[derive(Clone, Copy)]
enum Change {
    Nothing,
    // A number is written into the object at this address.
    Write(Spot, i64),
    // An object with one number is placed, mutable or not.
    Place(bool),
    Freeze(Spot),
    // All is dropped that isn't reachable from this object.
    Sweep(Spot),
    // The pieces are prepared.
    Settle,
}

fn happens(alloc: Global, heap: &mut LeafHeap, what: Change) -> bool {
    match what {
        Change::Nothing => true,
        Change::Write(spot, value) => set_number(heap, at_spot(spot), 0, value),
        Change::Place(mutable) => place_kind(heap, 1, mutable),
        Change::Freeze(spot) => freeze(heap, at_spot(spot)),
        Change::Sweep(root) => mark_and_sweep(alloc, heap, &[at_spot(root)], &[], 1).is_some(),
        Change::Settle => heap.settle().is_ok(),
    }
}

// Two objects with a number each, 7 and 9, of which the second is mutable.
const TWO: [Put; 3] = [Put::Chunk(0, 1), Put::Object(0, 1, 0), Put::Object(0, 1, 1)];

// The numbers that a view shows for objects at the first three addresses of chunk 0.
type Numbers = [Option<i64>; 3];

fn shown(heap: &LeafHeap) -> Option<Numbers> {
    let view = heap.view(None).ok()?;
    Some([
        shown_int(&view, at(0, 0), 0),
        shown_int(&view, at(0, 3), 0),
        shown_int(&view, at(0, 6), 0),
    ])
}

// What views show of the two objects, settled, before these changes and after them.
fn shown_around(alloc: Global, changes: &[Change]) -> Option<(Numbers, Numbers)> {
    let mut heap = frozen_heap(alloc, &TWO, at(0, 0), 7)?;
    if !set_number(&mut heap, at(0, 3), 0, 9) || heap.settle().is_err() {
        return None;
    }
    let before = shown(&heap)?;
    for &what in changes {
        if !happens(alloc, &mut heap, what) {
            return None;
        }
    }
    Some((before, shown(&heap)?))
}

const FIRST_SHOWN: Numbers = [Some(7), None, None];

const CHANGES: &[(&[Change], Numbers)] = &[
    (&[Change::Nothing], FIRST_SHOWN),
    (&[Change::Settle], FIRST_SHOWN),
    (&[Change::Write((0, 3), 5)], FIRST_SHOWN),
    (
        &[Change::Write((0, 3), 5), Change::Freeze((0, 3))],
        [Some(7), Some(5), None],
    ),
    (&[Change::Freeze((0, 3))], [Some(7), Some(9), None]),
    (
        &[Change::Freeze((0, 3)), Change::Write((0, 3), 5)],
        [Some(7), Some(5), None],
    ),
    (&[Change::Place(true)], FIRST_SHOWN),
    (&[Change::Place(false)], [Some(7), None, Some(0)]),
    (
        &[Change::Place(true), Change::Settle, Change::Freeze((0, 6))],
        [Some(7), None, Some(0)],
    ),
    (&[Change::Sweep((0, 0))], FIRST_SHOWN),
    (&[Change::Sweep((0, 3))], [None; 3]),
];

fn shows_changes(alloc: Global, changes: &[Change], after: Numbers) -> bool {
    shown_around(alloc, changes) == Some((FIRST_SHOWN, after))
}

// Prepared pieces don't outlast a change of what they show.
#[test]
fn views_show_what_changed(rt: HostRuntime) {
    for &(changes, after) in CHANGES {
        assert!(rt; shows_changes(rt.alloc(), changes, after));
    }
}
