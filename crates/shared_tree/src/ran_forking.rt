// A part's steps are committed with a fork.

ghost use Rattle.std.specs.Prelude.{◌≡◌, ◌≤◌, ◌<◌, ℕ, OnErr, OnOk, IfErr, IfOk, None};
ghost use Rattle.entry_calls.specs.below.hh_model.{depth_limit};
ghost use Rattle.entry_calls.specs.below.heap_tree.{depth_of};
ghost use Rattle.entry_calls.specs.below.core_invariant.{refused, WorkerPartFits};
ghost use Rattle.entry_calls.specs.below.step_commit.{alone_entry, HaltsAlone};
ghost use Rattle.entry_calls.specs.below.fork_join_commit.{ForksTo, IsAtFork};
ghost use Rattle.entry_calls.specs.Calls.{EntersLeaving};
ghost use Rattle.shared_tree.specs.StepEnd.{MayBeEntered};

use crate::in_block::{fork_task_slots, grow};
use crate::shared::Shared;
use crate::steps_entered::alone_of;
use entry_calls::{
    BlockSource, BoxedSlot, DEPTH_LIMIT, End, Instr, Marking, MarkingRoom, NotEntered, NotLeft,
    PartInBlock, Private, Ran, Trap,
};

// Keeps the buffers of the marking that is abandoned, if there is one, for the next marking.
fn keep_room(room: &mut MarkingRoom, marked: Option<BoxedSlot<Marking>>) {
    if let Some(marking) = marked {
        *room = marking.into_inner().into_room();
    }
}

impl Shared {
    // The functions that the children begin; or the line of the fork in the text, if too many forks are above it.
    pub(crate) fn next_fork(&self, part: &Private) -> Result<(u32, u32), u32>
        requires out { MayBeEntered self.now part.now }
        requires forks { IsAtFork self.now part.now }
        ensures goes { IfOk result (λ two. (line : ℕ) × ForksTo self.now part.now two.0 two.1 line) }
        ensures shallow { OnOk result (depth_of self.now.tree part.now.task < depth_limit) }
        ensures traps { IfErr result (λ line. (left : ℕ) × (right : ℕ) × ForksTo self.now part.now left right line) }
        ensures deep { OnErr result (depth_limit ≤ depth_of self.now.tree part.now.task) }
    {
        self.stands();
        let (instr, number) = self.next_line(part);
        let Instr::Par(left, right) = instr else {
            unreachable!()
        };
        if self.tree.depth(part.task) < DEPTH_LIMIT {
            Ok((left, right))
        } else {
            Err(number)
        }
    }

    // Commits a fork: the part's task waits for two children.
    pub(crate) fn enter_fork(
        &mut self,
        blocks: &mut BlockSource,
        worker: u32,
        part: PartInBlock,
        left: u32,
        right: u32,
    ) -> Result<Ran, NotLeft>
        requires room { 0 < self.old.journal.room }
        requires fits { WorkerPartFits self.old worker part }
        requires forks { IsAtFork self.old part }
        requires free { refused self.old (alone_entry worker part) ≡ None }
        requires by { (line : ℕ) × ForksTo self.old part left right line }
        requires shallow { depth_of self.old.tree part.task < depth_limit }
        ensures { EntersLeaving self.old self.new worker part result }
    {
        let (tree, task_slots) = (&mut self.tree, &mut self.heaps.task_slots);
        let Ok((first, second, two)) = grow(tree, task_slots, &part, left, right) else {
            return Err(NotLeft {
                cause: NotEntered::NoMemory,
                part,
            });
        };
        let (left, right) = (first.task, second.task);
        let held = part.get();
        self.steps += held.fresh as u64 + 1;
        self.journal
            .push_reserved(alone_of(worker, held.task, held.fresh));
        self.tasks_out.set(worker as usize, None);
        let marked = fork_task_slots(blocks, &mut self.heaps.task_slots, part, first, second, two);
        keep_room(&mut self.room, marked);
        Ok(Ran::Forked { left, right })
    }

    // Commits a fork that ends the run, since too many forks are above it.
    #[cold]
    pub(crate) fn trap_fork(&mut self, worker: u32, part: PartInBlock, line: u32) -> PartInBlock
        requires room { 0 < self.old.journal.room }
        requires fits { WorkerPartFits self.old worker part }
        requires forks { IsAtFork self.old part }
        requires free { refused self.old (alone_entry worker part) ≡ None }
        requires by { (left : ℕ) × (right : ℕ) × ForksTo self.old part left right line }
        requires deep { depth_limit ≤ depth_of self.old.tree part.task }
        ensures { HaltsAlone self.old self.new worker part result }
    {
        self.stands();
        let (held, block) = part.take_out();
        let mut held = held;
        let end = End::Trapped(Trap::Depth, held.task, line);
        self.enter_halt(worker, &mut held, end);
        block.fill(held)
    }
}
