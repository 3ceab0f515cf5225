// What an entry does with a part in its block: it is copied into the block where its task is taken, and out of it where
// it is parked or joined, and then the block is kept.

ghost use Rattle.std.specs.Prelude.{◌≡◌, ◌≤◌, ◌<◌, ◌+◌, ◌^◌, ◌++◌, ◌∷◌, [], IsSome, OnErr, OnOk, IfOk, None, Some, true, length, slice_get, slice_set};
ghost use Rattle.entry_calls.specs.below.hh_model.{depth_limit};
ghost use Rattle.entry_calls.specs.below.heap_tree.{depth_of, forked, state_of};
ghost use Rattle.entry_calls.specs.below.core_invariant.{rest_at, taken_part, HasFrames};
ghost use Rattle.entry_calls.specs.below.task_frames.{FramesValue};
ghost use Rattle.entry_calls.specs.below.task_slots.{marks_at};
ghost use Rattle.entry_calls.specs.below.step_commit.{ended_rest};
ghost use Rattle.entry_calls.specs.below.fork_join_commit.{begun_rest, part_child, waiting_rest, SetsFork, own_child, GetsPlaces, SameButPlacesOf};

use entry_calls::{
    BlockSource, BoxedSlot, Child, EndedChild, ForkBlocks, Marking, ParkedTask, PartBlock,
    PartInBlock, TaskSlot, TaskSlots, TaskState, Tree, Work,
};
use std::alloc::AllocError;

/// The part of a task that no worker held.
#[inline(always)]
pub(crate) fn opened(
    block: PartBlock,
    rest: ParkedTask,
    task: u32,
    leaf_limit: u64,
    field_limit: u32,
) -> PartInBlock
    requires { HasFrames rest.work }
    ensures part { (s : FramesValue) → rest.work ≡ Work.Calls s → result ≡ taken_part task leaf_limit field_limit rest s }
    ensures task { result.task ≡ task }
    ensures fresh { result.fresh ≡ 0 }
    ensures heap { result.heap ≡ rest.heap }
    ensures idle { result.begun ≡ None }
{
    block.fill(entry_calls::opened(rest, task, leaf_limit, field_limit))
}

/// Reserves capacity and blocks for two more slots, and a block for that of the part's task, and then forks. If an
/// allocation fails, only capacities change.
#[inline(always)]
pub(crate) fn grow(
    tree: &mut Tree,
    task_slots: &mut TaskSlots,
    part: &PartInBlock,
    left: u32,
    right: u32,
) -> Result<(Child, Child, ForkBlocks), AllocError>
    requires out { state_of tree.old part.now.task ≡ Some TaskState.Out }
    requires shallow { depth_of tree.old part.now.task < depth_limit }
    requires few { length tree.old < 2 ^ 31 }
    requires made { part.now.task < length task_slots.old.rests }
    ensures tree { OnOk result (tree.new ≡ forked tree.old part.now.task) }
    ensures task_slots { task_slots.new ≡ record task_slots.old { blocks = task_slots.new.blocks; room = task_slots.new.room } }
    ensures room { OnOk result (2 ≤ task_slots.new.room) }
    ensures block { OnOk result (slice_get task_slots.new.blocks part.now.task ≡ Some true) }
    ensures left_child { IfOk result (λ two. two.0 ≡ part_child part.now (length tree.old) left two.0.heap.slots two.0.heap.spare) }
    ensures right_child { IfOk result (λ two. two.1 ≡ part_child part.now (length tree.old + 1) right two.1.heap.slots two.1.heap.spare) }
    ensures same_tree { OnErr result (tree.new ≡ tree.old) }
{
    entry_calls::grow(tree, task_slots, part.get(), left, right)
}

/// The slots after a task has forked, within the reserved capacity and blocks: its own has its parked state, keeps
/// overwritten references and isn't being marked, and there are two more. Returns the marking of its heap since its
/// last fork, if any.
#[inline(always)]
pub(crate) fn fork_task_slots(
    blocks: &mut BlockSource,
    task_slots: &mut TaskSlots,
    part: PartInBlock,
    left: Child,
    right: Child,
    two: ForkBlocks,
) -> Option<BoxedSlot<Marking>>
    requires made { part.task < length task_slots.old.rests }
    requires noted { part.task < length task_slots.old.sets }
    requires block { slice_get task_slots.old.blocks part.task ≡ Some true }
    requires room { 2 ≤ task_slots.old.room }
    requires next { part.frames.top.next + 1 < 2 ^ 32 }
    ensures rests { task_slots.new.rests ≡ slice_set task_slots.old.rests part.task (Some (waiting_rest part)) ++ Some (begun_rest left) ∷ (Some (begun_rest right) ∷ []) }
    ensures sets { SetsFork task_slots.old.sets task_slots.new.sets part.task }
    ensures marks { task_slots.new.marks ≡ slice_set task_slots.old.marks part.task None ++ None ∷ (None ∷ []) }
    ensures marked { result ≡ marks_at task_slots.old.marks part.task }
{
    entry_calls::fork_task_slots(task_slots, blocks.unpack(part), left, right, two)
}

/// The parked state of a task whose last frame returned.
#[inline(always)]
pub(crate) fn at_end(blocks: &mut BlockSource, part: PartInBlock) -> ParkedTask
    ensures { result ≡ ended_rest part }
{
    entry_calls::at_end(blocks.unpack(part))
}

/// Reserves capacity in the slot of a task for all that two of its children bring: a part, and its sibling, which has
/// ended. Nothing else changes.
#[inline(always)]
pub(crate) fn make_places(
    task_slots: &mut TaskSlots,
    part: &PartInBlock,
    parent: u32,
) -> Result<(), AllocError>
    requires child { 0 < part.now.task }
    requires few { part.now.task < 2 ^ 31 }
    requires there { IsSome (rest_at task_slots.old.rests parent) }
    ensures same { SameButPlacesOf task_slots.old task_slots.new parent }
    ensures places { OnOk result (GetsPlaces task_slots.old task_slots.new part.now parent) }
{
    entry_calls::make_places(task_slots, part.get(), parent)
}

/// What a join takes of the worker's own child: its part, and what was left in its slot.
#[inline(always)]
pub(crate) fn own_child(blocks: &mut BlockSource, part: PartInBlock, slot: TaskSlot) -> EndedChild
    ensures { result ≡ own_child part slot.set.remembered }
{
    entry_calls::own_child(blocks.unpack(part), slot)
}
