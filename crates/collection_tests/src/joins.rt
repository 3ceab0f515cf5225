// Forks and joins: what children begin with, in which order they end, and what their parent takes over.

use crate::families::{Family, Field, Outcome};
use fork_join::Child;
use heap_tree::{TaskState, Tree};
use join_scenes::{ended, forked, has_forked};
use memory_scenes::{Addr, Frames, LeafHeap, one_frame};
use std::alloc::Global;

const LEFT: Option<Addr> = Some(Addr {
    chunk: 1,
    offset: 0,
});

const RIGHT: Option<Addr> = Some(Addr {
    chunk: 2,
    offset: 7,
});

const NOTHING: Outcome = (0, None);

// A frame with numbers and references in the registers 0, 1 and 15.
fn frame(alloc: Global) -> Option<Frames> {
    let mut frames = one_frame(alloc)?;
    for (register, number) in [(0, 10), (1, 11), (15, 25)] {
        frames.set_int(register, number);
    }
    frames.set_reference(15, LEFT);
    Some(frames)
}

// Whether a child has this number, and is before the first instruction of its function with the registers of such a
// frame and an empty heap.
fn begins(child: &Child, task: u32, function: u32) -> bool {
    let (frames, heap) = (&child.frames, &child.heap);
    (child.task, frames.fun(), frames.next()) == (task, function, 0)
        && (frames.depth(), frames.int(1), frames.int(15)) == (1, 11, 25)
        && frames.reference(15) == LEFT
        && heap.chunks().is_empty()
        && heap.since() == 0
}

// Whether the left and the right child of the root begin so.
fn begin(alloc: Global, tree: &mut Tree, top: &Frames) -> Option<(bool, bool)> {
    let (left, right) = forked(alloc, tree, 0, &LeafHeap::new(alloc), None, top)?;
    Some((begins(&left, 1, 5), begins(&right, 2, 6)))
}

// The same for a new tree.
fn begin_in_new_tree(alloc: Global) -> Option<(bool, bool)> {
    let Ok(mut tree) = Tree::new(alloc) else {
        return None;
    };
    let top = frame(alloc)?;
    begin(alloc, &mut tree, &top)
}

#[test]
fn children_begin(rt: HostRuntime) {
    assert!(rt; begin_in_new_tree(rt.alloc()) == Some((true, true)));
}

// Whether the tasks 0 and 2 fork.
fn fork_both(alloc: Global, tree: &mut Tree, top: &Frames) -> bool {
    has_forked(alloc, tree, 0, top) && has_forked(alloc, tree, 2, top)
}

// The root has the children 1 and 2, and task 2 has 3 and 4.
fn three_levels(alloc: Global) -> Option<Tree> {
    let Ok(mut tree) = Tree::new(alloc) else {
        return None;
    };
    let top = one_frame(alloc)?;
    if fork_both(alloc, &mut tree, &top) {
        Some(tree)
    } else {
        None
    }
}

// The parent that continues when the first of two tasks ends, the states then of that task and of task 2, and the
// parent that continues when the second one ends.
type Ends = (
    Option<u32>,
    Option<TaskState>,
    Option<TaskState>,
    Option<u32>,
);

// Both end, if they are children.
fn ends(tree: &mut Tree, first: u32, second: u32) -> Option<Ends> {
    let one = ended(tree, first)?;
    let (state, parent) = (tree.state(first), tree.state(2));
    Some((one, state, parent, ended(tree, second)?))
}

// The same in a tree of three levels.
fn ended_one_by_one(alloc: Global, first: u32, second: u32) -> Option<Ends> {
    let mut tree = three_levels(alloc)?;
    ends(&mut tree, first, second)
}

const ENDED: Option<TaskState> = Some(TaskState::Ended);

const WAITING: Option<TaskState> = Some(TaskState::Waiting);

// Whichever child ends last, its parent continues.
#[test]
fn children_end(rt: HostRuntime) {
    let alloc = rt.alloc();
    let goes_on = Some((None, ENDED, WAITING, Some(2)));
    assert!(rt; ended_one_by_one(alloc, 3, 4) == goes_on);
    assert!(rt; ended_one_by_one(alloc, 4, 3) == goes_on);
    assert!(rt; ended_one_by_one(alloc, 3, 1) == Some((None, ENDED, WAITING, None)));
}

// The root, the right child and the left one each have a chunk with an object, and the children are joined.
fn joins_all(family: &mut Family, top: &mut Frames) -> bool {
    family.add_chunk(0)
        && family.place(0, 3)
        && family.fork(top)
        && family.add_chunk(2)
        && family.place(2, 500)
        && family.add_chunk(1)
        && family.place(1, 20)
        && family.join(top, (-5, LEFT), (6, RIGHT))
}

// The registers 0, 1 and 15.
type Registers = ([i64; 3], [Option<Addr>; 3]);

fn registers(top: &Frames) -> Registers {
    let numbers = [top.int(0), top.int(1), top.int(15)];
    let references = [top.reference(0), top.reference(1), top.reference(15)];
    (numbers, references)
}

// The root's words, its chunks, and the states of all three tasks.
type Taken = (
    Option<(u64, u64, u32)>,
    Option<[(u32, Option<u32>); 3]>,
    [Option<TaskState>; 3],
);

fn taken(family: &Family) -> Taken {
    let states = [family.state(0), family.state(1), family.state(2)];
    (family.words(0), family.chunks(), states)
}

// What the root's frame and its heap are after the join.
fn taken_over(family: &mut Family, top: &mut Frames) -> Option<(Registers, Taken)> {
    if !joins_all(family, top) {
        return None;
    }
    Some((registers(top), taken(family)))
}

// The same for a new family.
fn taken_over_in_new_family(alloc: Global) -> Option<(Registers, Taken)> {
    let mut top = frame(alloc)?;
    let mut family = Family::new(alloc)?;
    taken_over(&mut family, &mut top)
}

const JOINED: Option<TaskState> = Some(TaskState::Joined);

// The parent gets the results in its first registers, the words that its children placed, and their chunks before its
// own; it continues to fill its own.
#[test]
fn a_parent_takes_over(rt: HostRuntime) {
    let registers = ([-5, 6, 25], [LEFT, RIGHT, LEFT]);
    let chunks = [(2, Some(0)), (1, Some(0)), (0, Some(0))];
    let states = [Some(TaskState::Ready), JOINED, JOINED];
    let taken = (Some((523, 523, 1021)), Some(chunks), states);
    assert!(rt; taken_over_in_new_family(rt.alloc()) == Some((registers, taken)));
}

// The fields recorded for the parent, the left and the right child, and those of the parent after the join. Its own
// chunk has the number 0.
const NOTED: &[Noted] = &[
    (&[], &[], &[], &[]),
    // Those of objects elsewhere are kept, the left child's before the right one's.
    (&[], &[(9, 0)], &[(8, 0)], &[(9, 0), (8, 0)]),
    // Those of the parent's objects no longer point down.
    (&[], &[(0, 0), (9, 1)], &[(0, 1)], &[(9, 1)]),
    // What both children know, or the parent, occurs once.
    (&[], &[(9, 0), (9, 1)], &[(9, 1), (9, 0)], &[(9, 0), (9, 1)]),
    (&[(8, 2)], &[(8, 2)], &[(7, 2), (8, 2)], &[(8, 2), (7, 2)]),
    // One of a sibling's object is kept too.
    (&[(9, 3)], &[], &[(1, 0)], &[(9, 3), (1, 0)]),
];

type Noted = (
    &'static [Field],
    &'static [Field],
    &'static [Field],
    &'static [Field],
);

// Whether a task is joined with its children, and has exactly these fields then.
fn has_after_join(family: &mut Family, top: &mut Frames, t: usize, expected: &[Field]) -> bool {
    family.join(top, NOTHING, NOTHING) && family.has_noted(t, expected)
}

// Whether a join leaves the expected fields.
fn are_joined(family: &mut Family, top: &mut Frames, noted: Noted) -> bool {
    let (parent, left, right, expected) = noted;
    family.add_chunk(0)
        && family.fork(top)
        && family.note(0, parent)
        && family.note(1, left)
        && family.note(2, right)
        && has_after_join(family, top, 0, expected)
}

// The same for a new family.
fn are_joined_in_new_family(alloc: Global, noted: Noted) -> bool {
    match (one_frame(alloc), Family::new(alloc)) {
        (Some(mut top), Some(mut family)) => are_joined(&mut family, &mut top, noted),
        _ => false,
    }
}

#[test]
fn noted_fields(rt: HostRuntime) {
    for &noted in NOTED {
        assert!(rt; are_joined_in_new_family(rt.alloc(), noted));
    }
}

// Whether the tasks 0, 2 and 4 each get a chunk and fork.
fn forks_thrice(family: &mut Family, top: &Frames) -> bool {
    for t in [0, 2, 4] {
        if !family.add_chunk(t) || !family.fork(top) {
            return false;
        }
    }
    true
}

// Whether the fields of task 6 that are left at each join are those that still point down.
fn are_lifted(family: &mut Family, top: &mut Frames) -> bool {
    forks_thrice(family, top)
        && family.note(6, &[(0, 0), (2, 1), (1, 2)])
        && has_after_join(family, top, 4, &[(0, 0), (1, 2)])
        && has_after_join(family, top, 2, &[(0, 0)])
        && has_after_join(family, top, 0, &[])
}

// The same for a new family.
fn are_lifted_in_new_family(alloc: Global) -> bool {
    match (one_frame(alloc), Family::new(alloc)) {
        (Some(mut top), Some(mut family)) => are_lifted(&mut family, &mut top),
        _ => false,
    }
}

// A field of the root's object that points down by three levels is lifted twice, and dropped when it no longer points
// down. One of an object of the task between is dropped at the first join.
#[test]
fn lifted_twice(rt: HostRuntime) {
    assert!(rt; are_lifted_in_new_family(rt.alloc()));
}
