// A part's steps are committed with the last return of a task that isn't the root.

ghost use Rattle.std.specs.Prelude.{◌≡◌, ◌<◌, OnOk, None, Some, slice_set};
ghost use Rattle.entry_calls.specs.below.heap_tree.{parent_of, state_of, sibling};
ghost use Rattle.entry_calls.specs.below.core_invariant.{refused, WorkerPartFits};
ghost use Rattle.entry_calls.specs.below.step_commit.{alone_entry};
ghost use Rattle.entry_calls.specs.below.fork_join_commit.{EndsChild, IsAtEnd, HasPlaces, SameButPlaces};
ghost use Rattle.entry_calls.specs.Calls.{EntersLeaving};
ghost use Rattle.shared_tree.specs.StepEnd.{MayBeEntered};

use crate::in_block::{at_end, make_places, own_child};
use crate::shared::Shared;
use crate::steps_entered::alone_of;
use entry_calls::{
    BlockSource, NotEntered, NotLeft, PartInBlock, Ran, SetOf, TaskState, in_order, is_ended,
    join_children, other_child, sibling_of,
};
use std::alloc::AllocError;

impl Shared {
    // Commits the end of a child whose sibling goes on, given memory for its parked state.
    fn ran_first(
        &mut self,
        blocks: &mut BlockSource,
        worker: u32,
        part: PartInBlock,
    ) -> Result<Ran, NotLeft>
        requires room { 0 < self.old.journal.room }
        requires fits { WorkerPartFits self.old worker part }
        requires ends { IsAtEnd self.old part }
        requires free { refused self.old (alone_entry worker part) ≡ None }
        requires alone { state_of self.old.tree (sibling part.task) ≡ Some TaskState.Ended → ⊥ }
        ensures { EntersLeaving self.old self.new worker part result }
    {
        let task = part.task();
        if self.heaps.task_slots.make_block(task).is_err() {
            return Err(NotLeft {
                cause: NotEntered::NoMemory,
                part,
            });
        }
        let held = part.get();
        self.steps += held.fresh as u64 + 1;
        self.journal
            .push_reserved(alone_of(worker, held.task, held.fresh));
        self.tree.set_state(task, TaskState::Ended);
        self.tasks_out.set(worker as usize, None);
        self.heaps.task_slots.put_rest(task, at_end(blocks, part));
        Ok(Ran::Ended { resumed: None })
    }

    // Reserves capacity in the parent's heap and set for what both children bring; nothing else changes.
    fn make_join_places(&mut self, part: &PartInBlock, parent: u32) -> Result<(), AllocError>
        requires out { MayBeEntered self.old part.now }
        requires ends { IsAtEnd self.old part.now }
        requires ended { state_of self.old.tree (sibling part.now.task) ≡ Some TaskState.Ended }
        requires parent { parent_of self.old.tree part.now.task ≡ Some parent }
        ensures same { SameButPlaces self.old self.new }
        ensures places { OnOk result (HasPlaces self.new part.now parent) }
    {
        self.stands();
        make_places(&mut self.heaps.task_slots, part, parent)
    }

    // Commits the end of a child whose sibling has ended: both join their parent, which has capacity for what they
    // bring.
    fn enter_join(&mut self, blocks: &mut BlockSource, worker: u32, part: PartInBlock, parent: u32)
        requires room { 0 < self.old.journal.room }
        requires fits { WorkerPartFits self.old worker part }
        requires ends { IsAtEnd self.old part }
        requires free { refused self.old (alone_entry worker part) ≡ None }
        requires ended { state_of self.old.tree (sibling part.task) ≡ Some TaskState.Ended }
        requires parent { parent_of self.old.tree part.task ≡ Some parent }
        requires places { HasPlaces self.old part parent }
        ensures joined { EndsChild self.old self.new worker part (Some parent) }
        ensures task_out { self.new.tasks_out ≡ slice_set self.old.tasks_out worker None }
    {
        let task = part.task();
        let held = part.get();
        self.steps += held.fresh as u64 + 1;
        self.journal
            .push_reserved(alone_of(worker, held.task, held.fresh));
        let other = sibling_of(task);
        self.tasks_out.set(worker as usize, None);
        self.tree.set_state(task, TaskState::Ended);
        let task_slots = &mut self.heaps.task_slots;
        let own = own_child(blocks, part, task_slots.leave(task));
        let beside = other_child(task_slots.allocator(), other, task_slots.leave(other));
        let above = task_slots.take_rest(parent);
        let (noted, block) = task_slots.take_set(parent).into_parts();
        let children = in_order(own, beside);
        let (tree, pool) = (&mut self.tree, &mut self.heaps.pool);
        let (rest, noted) = join_children(tree, pool, parent, above, noted, children);
        let set = SetOf::remembering(self.heaps.task_slots.allocator(), noted, block);
        self.heaps.task_slots.put_rest(parent, rest);
        self.heaps.task_slots.put_set(parent, set);
    }

    /// Commits the fresh steps of a part and its next one, which is the last return of a task that isn't the root. If an
    /// allocation fails, only the spare capacity of the parent's heap and set changes.
    pub(crate) fn ran_ending(
        &mut self,
        blocks: &mut BlockSource,
        worker: u32,
        part: PartInBlock,
    ) -> Result<Ran, NotLeft>
        requires room { 0 < self.old.journal.room }
        requires fits { WorkerPartFits self.old worker part }
        requires ends { IsAtEnd self.old part }
        requires free { refused self.old (alone_entry worker part) ≡ None }
        ensures { EntersLeaving self.old self.new worker part result }
    {
        self.stands();
        let task = part.task();
        if !is_ended(self.tree.state(sibling_of(task))) {
            return self.ran_first(blocks, worker, part);
        }
        let Some(parent) = self.tree.parent(task) else {
            unreachable!()
        };
        match self.make_join_places(&part, parent) {
            Ok(()) => {
                self.enter_join(blocks, worker, part, parent);
                self.stands();
                Ok(Ran::Ended {
                    resumed: Some(parent),
                })
            }
            Err(_) => Err(NotLeft {
                cause: NotEntered::NoMemory,
                part,
            }),
        }
    }
}
