// What a join takes out of the shared value, and the capacity that it needs.

ghost use Rattle.std.specs.Prelude.{◌≡◌, ◌<◌, ◌^◌, ◌↔◌, IsSome, IsTrue, OnOk, IfOk, None, Some, ◌++◌, [], false};
ghost use Rattle.step_commit.specs.below.task_frames.{FramesValue};
ghost use Rattle.step_commit.specs.below.heap_tree.{is_left};
ghost use Rattle.step_commit.specs.below.remembered_set.{notes_in};
ghost use Rattle.step_commit.specs.below.fork_join.{joined_nodes, with_results, AreRelabelled, JoinsSides};
ghost use Rattle.step_commit.specs.below.task_slots.{ParkedTask as RestOf};
ghost use Rattle.step_commit.specs.below.core_invariant.{HasFrames, rest_at};
ghost use Rattle.fork_join_commit.specs.Joins.{chunk_count, chunks_of_both, left_child_of, other_child, own_child, parent_side, right_of, sources_of_both, work_result, CanJoin, GetsPlaces, IsRestOf, SameButPlacesOf};

use std::alloc::{AllocError, Global};
use step_commit::{
    Addr, EndedChild, LeafHeap, ParkedTask, Pool, Private, Remembered, Side, TaskSlot, TaskSlots,
    TaskState, Tree, View, Work, join, places, sibling_of,
};

/// Whether the task has finished and not yet joined.
pub fn is_ended(state: Option<TaskState>) -> bool
    ensures { IsTrue result ↔ (state ≡ Some TaskState.Ended) }
{
    match state {
        Some(TaskState::Ended) => true,
        _ => false,
    }
}

// The result of a task that has ended.
fn result_of(work: &Work) -> (i64, Option<Addr>)
    ensures { result ≡ work_result work.now }
{
    match work {
        Work::Calls(_) => (0, None),
        Work::Result(number, reference) => (*number, *reference),
    }
}

// How many chunks the heap of a task has that no worker holds.
fn chunks_at(task_slots: &TaskSlots, t: u32) -> usize
    ensures { result ≡ chunk_count (rest_at task_slots.now.rests t) }
{
    match task_slots.rest(t) {
        Some(rest) => rest.heap.chunks().len(),
        None => 0,
    }
}

// How much capacity the slot of a task needs for all that two of its children bring: a part, and its sibling, which has
// ended.
fn places_for(task_slots: &TaskSlots, part: &Private) -> Result<(u32, u32), AllocError>
    requires child { 0 < part.now.task }
    requires few { part.now.task < 2 ^ 31 }
    ensures chunks { IfOk result (λ n. n.0 ≡ chunks_of_both task_slots.now.rests part.now) }
    ensures sources { IfOk result (λ n. n.1 ≡ sources_of_both task_slots.now.sets part.now) }
{
    let other = sibling_of(part.task);
    let chunks = places(part.heap.chunks().len(), chunks_at(task_slots, other))?;
    let sources = places(
        task_slots.sources(part.task).len(),
        task_slots.sources(other).len(),
    )?;
    Ok((chunks, sources))
}

/// Reserves capacity in the slot of a task for all that two of its children bring: a part, and its sibling, which has
/// ended. Nothing else changes.
pub fn make_places(
    task_slots: &mut TaskSlots,
    part: &Private,
    parent: u32,
) -> Result<(), AllocError>
    requires child { 0 < part.now.task }
    requires few { part.now.task < 2 ^ 31 }
    requires there { IsSome (rest_at task_slots.old.rests parent) }
    ensures same { SameButPlacesOf task_slots.old task_slots.new parent }
    ensures places { OnOk result (GetsPlaces task_slots.old task_slots.new part.now parent) }
{
    let (chunks, sources) = places_for(task_slots, part)?;
    task_slots.make_heap_room(parent, chunks)?;
    task_slots.make_set_room(parent, sources)
}

/// The left child and the right one.
pub fn in_order(own: EndedChild, other: EndedChild) -> (EndedChild, EndedChild)
    ensures left { result.0 ≡ left_child_of (is_left own.side.task) own other }
    ensures right { result.1 ≡ right_of (is_left own.side.task) own other }
{
    if own.side.task % 2 == 1 {
        (own, other)
    } else {
        (other, own)
    }
}

/// Joins both children with their parent: returns its parked state, and what is remembered for its heap.
pub fn join_children(
    tree: &mut Tree,
    pool: &mut Pool,
    parent: u32,
    above: ParkedTask,
    noted: Remembered,
    children: (EndedChild, EndedChild),
) -> (ParkedTask, Remembered)
    requires work { HasFrames above.work }
    requires can { CanJoin tree.old pool.old (parent_side parent above noted) children.0 children.1 }
    ensures tree { tree.new ≡ joined_nodes tree.old parent children.0.side.task children.1.side.task }
    ensures pool { AreRelabelled pool.old pool.new (children.0.side.heap.chunks ++ children.1.side.heap.chunks) parent }
    ensures side { JoinsSides (parent_side parent above noted) (parent_side parent result.0 result.1) children.0.side children.1.side }
    ensures none { noted ≡ notes_in None → result.1.sources ≡ [] }
    ensures rest { (s : FramesValue) → above.work ≡ Work.Calls s → result.0 ≡ record above { work = Work.Calls (with_results s children.0.result children.1.result); heap = result.0.heap } }
{
    let ParkedTask {
        work,
        heap,
        view,
        allocations,
    } = above;
    let Work::Calls(mut frames) = work else {
        unreachable!()
    };
    let (left, right) = children;
    let mut side = Side {
        task: parent,
        heap,
        remembered: noted,
    };
    join(tree, pool, &mut side, &mut frames, left, right);
    let rest = ParkedTask {
        work: Work::Calls(frames),
        heap: side.heap,
        view,
        allocations,
    };
    (rest, side.remembered)
}

/// What a join takes of the worker's own child: its part, and what was left in its slot.
pub fn own_child(part: Private, slot: TaskSlot) -> EndedChild
    ensures { result ≡ own_child part slot.set.remembered }
{
    let result = (part.frames.int(0), part.frames.reference(0));
    let (remembered, block) = slot.set.into_parts();
    drop(block);
    EndedChild {
        side: Side {
            task: part.task,
            heap: part.heap,
            remembered,
        },
        result,
    }
}

// The parked state of a task, or what stands for none: an end without a result.
fn rest_of(alloc: Global, rest: Option<ParkedTask>) -> ParkedTask
    ensures { IsRestOf rest result }
{
    match rest {
        Some(rest) => rest,
        None => ParkedTask {
            work: Work::Result(0, None),
            heap: LeafHeap::new(alloc),
            view: View::none(),
            allocations: 0,
        },
    }
}

/// Like `own_child`, for the other child, which no worker holds.
pub fn other_child(alloc: Global, t: u32, slot: TaskSlot) -> EndedChild
    ensures { (r : RestOf) × IsRestOf slot.rest r × (result ≡ other_child t r slot.set.remembered) }
{
    let TaskSlot { rest, set, .. } = slot;
    let (remembered, block) = set.into_parts();
    drop(block);
    let rest = rest_of(alloc, rest);
    let result = result_of(&rest.work);
    EndedChild {
        side: Side {
            task: t,
            heap: rest.heap,
            remembered,
        },
        result,
    }
}
