// How a fork changes the tree and the slots.

ghost use Rattle.std.specs.Prelude.{◌≡◌, ◌<◌, ◌≤◌, ◌+◌, ◌^◌, ◌++◌, ◌∷◌, [], OnErr, OnOk, IfOk, None, Some, true, length, slice_get, slice_set};
ghost use Rattle.step_commit.specs.below.hh_model.{depth_limit};
ghost use Rattle.step_commit.specs.below.heap_tree.{depth_of, forked, state_of};
ghost use Rattle.step_commit.specs.below.task_slots.{marks_at};
ghost use Rattle.fork_join_commit.specs.Forks.{begun_rest, part_child, waiting_rest, SetsFork};

use std::alloc::{AllocError, Global};
use step_commit::{
    BoxedSlot, Child, Marking, ParkedTask, Private, TaskSlot, TaskSlots, TaskState, Tree, Work,
    fork,
};

// The parked state of a task that has forked.
fn waiting(part: Private) -> ParkedTask
    requires { part.frames.top.next + 1 < 2 ^ 32 }
    ensures { result ≡ waiting_rest part }
{
    let Private {
        mut frames,
        heap,
        view,
        allocations,
        ..
    } = part;
    let next = frames.next() + 1;
    frames.set_next(next);
    ParkedTask {
        work: Work::Calls(frames),
        heap,
        view,
        allocations,
    }
}

// The parked state of a child before its first step.
fn beginning(child: Child) -> ParkedTask
    ensures { result ≡ begun_rest child }
{
    ParkedTask {
        work: Work::Calls(child.frames),
        heap: child.heap,
        view: child.view,
        allocations: 0,
    }
}

/// Blocks for the slots of the two children of a task that forks.
#[derive(Drop)]
pub struct ForkBlocks {
    left: BoxedSlot<TaskSlot>,
    right: BoxedSlot<TaskSlot>,
}

// Blocks for the slots of two tasks, which the slots keep or which are allocated.
fn two_blocks(task_slots: &mut TaskSlots) -> Result<ForkBlocks, AllocError>
    ensures { task_slots.new ≡ task_slots.old }
{
    let left = task_slots.take_block()?;
    let right = task_slots.take_block()?;
    Ok(ForkBlocks { left, right })
}

// Reserves capacity and blocks for two more slots, and a block for that of a task.
fn reserve_slots(task_slots: &mut TaskSlots, task: u32) -> Result<ForkBlocks, AllocError>
    requires made { task < length task_slots.old.rests }
    ensures task_slots { task_slots.new ≡ record task_slots.old { blocks = task_slots.new.blocks; room = task_slots.new.room } }
    ensures room { OnOk result (2 ≤ task_slots.new.room) }
    ensures block { OnOk result (slice_get task_slots.new.blocks task ≡ Some true) }
{
    task_slots.reserve(2)?;
    task_slots.make_block(task)?;
    two_blocks(task_slots)
}

// Forks the tree, unless an allocation fails.
fn fork_tree(
    alloc: Global,
    tree: &mut Tree,
    part: &Private,
    left: u32,
    right: u32,
) -> Result<(Child, Child), AllocError>
    requires out { state_of tree.old part.now.task ≡ Some TaskState.Out }
    requires shallow { depth_of tree.old part.now.task < depth_limit }
    requires few { length tree.old < 2 ^ 31 }
    ensures tree { OnOk result (tree.new ≡ forked tree.old part.now.task) }
    ensures left_child { IfOk result (λ two. two.0 ≡ part_child part.now (length tree.old) left two.0.heap.slots two.0.heap.spare) }
    ensures right_child { IfOk result (λ two. two.1 ≡ part_child part.now (length tree.old + 1) right two.1.heap.slots two.1.heap.spare) }
    ensures same_tree { OnErr result (tree.new ≡ tree.old) }
{
    let view = part.heap.view(Some(&part.view))?;
    fork(alloc, tree, part.task, view, &part.frames, left, right)
}

/// Reserves capacity and blocks for two more slots, and a block for that of the part's task, and then forks. If an
/// allocation fails, only capacities change.
pub fn grow(
    tree: &mut Tree,
    task_slots: &mut TaskSlots,
    part: &Private,
    left: u32,
    right: u32,
) -> Result<(Child, Child, ForkBlocks), AllocError>
    requires out { state_of tree.old part.now.task ≡ Some TaskState.Out }
    requires shallow { depth_of tree.old part.now.task < depth_limit }
    requires few { length tree.old < 2 ^ 31 }
    requires made { part.now.task < length task_slots.old.rests }
    ensures tree { OnOk result (tree.new ≡ forked tree.old part.now.task) }
    ensures task_slots { task_slots.new ≡ record task_slots.old { blocks = task_slots.new.blocks; room = task_slots.new.room } }
    ensures room { OnOk result (2 ≤ task_slots.new.room) }
    ensures block { OnOk result (slice_get task_slots.new.blocks part.now.task ≡ Some true) }
    ensures left_child { IfOk result (λ two. two.0 ≡ part_child part.now (length tree.old) left two.0.heap.slots two.0.heap.spare) }
    ensures right_child { IfOk result (λ two. two.1 ≡ part_child part.now (length tree.old + 1) right two.1.heap.slots two.1.heap.spare) }
    ensures same_tree { OnErr result (tree.new ≡ tree.old) }
{
    let blocks = reserve_slots(task_slots, part.task)?;
    let (left, right) = fork_tree(task_slots.allocator(), tree, part, left, right)?;
    Ok((left, right, blocks))
}

/// The slots after a task has forked, within the reserved capacity and blocks: its own has its parked state, keeps
/// overwritten references and isn't being marked, and there are two more. Returns the marking of its heap since its
/// last fork, if any.
pub fn fork_task_slots(
    task_slots: &mut TaskSlots,
    part: Private,
    left: Child,
    right: Child,
    blocks: ForkBlocks,
) -> Option<BoxedSlot<Marking>>
    requires made { part.task < length task_slots.old.rests }
    requires noted { part.task < length task_slots.old.sets }
    requires block { slice_get task_slots.old.blocks part.task ≡ Some true }
    requires room { 2 ≤ task_slots.old.room }
    requires next { part.frames.top.next + 1 < 2 ^ 32 }
    ensures rests { task_slots.new.rests ≡ slice_set task_slots.old.rests part.task (Some (waiting_rest part)) ++ Some (begun_rest left) ∷ (Some (begun_rest right) ∷ []) }
    ensures sets { SetsFork task_slots.old.sets task_slots.new.sets part.task }
    ensures marks { task_slots.new.marks ≡ slice_set task_slots.old.marks part.task None ++ None ∷ (None ∷ []) }
    ensures marked { result ≡ marks_at task_slots.old.marks part.task }
{
    let task = part.task;
    task_slots.put_rest(task, waiting(part));
    task_slots.set_keeps(task, true);
    let marked = task_slots.take_marking(task);
    task_slots.push(beginning(left), blocks.left);
    task_slots.push(beginning(right), blocks.right);
    marked
}
