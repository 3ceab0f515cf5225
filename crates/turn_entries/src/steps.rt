//! The entries for which a worker comes.
ghost use Rattle.std.specs.Prelude.{◌≡◌, ◌+◌, ◌<◌, Some, None};
ghost use Rattle.entry_calls.specs.below.run_trace.{Kind as KindOf};
ghost use Rattle.entry_calls.specs.below.run_ledger.{Owed as OwedOf};
ghost use Rattle.entry_calls.specs.Ends.{LeavingAnswers};
ghost use Rattle.turn_entries.specs.Acts.{after_end, ActsAnyhow, ActsFor, EndsLeft};
ghost use Rattle.turn_entries.specs.Next.{after_steps, due_kind};
ghost use Rattle.turn_entries.specs.Parts.{IsPaused, MayRun};
ghost use Rattle.turn_entries.specs.Values.{MayEnter};

use crate::act::TurnOutcome;
use crate::between_turns::{Next, Ready};
use crate::run::Run;
use entry_calls::{BlockSource, EntryCalls, Lent, NotLeft, PartInBlock, Paused, Ran};

// How a worker goes on whose task has ended.
fn after_end(resumed: Option<u32>) -> Next
    ensures { result ≡ after_end resumed }
{
    match resumed {
        Some(parent) => Next::Resumed(parent),
        None => Next::Idle,
    }
}

impl<P: EntryCalls + Drop> Run<P> {
    // The worker takes a task that it has found, given memory for a block.
    pub(crate) fn take_task(
        &mut self,
        blocks: &mut BlockSource,
        worker: u32,
        task: u32,
    ) -> TurnOutcome
        requires enter { MayEnter (P.value self.old.paced) worker OwedOf.Nothing }
        ensures { ActsAnyhow (P.value self.old.paced) (P.value self.new.paced) worker (KindOf.Took task) result }
    {
        let Ok(block) = blocks.take() else {
            return self.halted();
        };
        match self.paced.took(worker, task, block) {
            Ok(part) => self.entered(Next::Running(part)),
            Err(_) => TurnOutcome::Same(Next::Idle),
        }
    }

    // The fresh steps of the part are committed.
    pub(crate) fn enter_private(&mut self, worker: u32, part: PartInBlock) -> TurnOutcome
        requires enter { MayEnter (P.value self.old.paced) worker OwedOf.Nothing }
        requires may { MayRun (P.value self.old.paced) worker part }
        requires fresh { 0 < part.fresh }
        ensures { ActsAnyhow (P.value self.old.paced) (P.value self.new.paced) worker (KindOf.Ran part.task part.fresh) result }
    {
        self.paced.stands();
        let mut part = part;
        match self.paced.ran_private(worker, part.get_mut()) {
            Ok(()) => self.entered(Next::Running(part)),
            Err(_) => unreachable!(),
        }
    }

    // Commits the fresh steps of the part with its next one, which isn't private. The part stays in its block, unless
    // that step gives it up: then the block is kept for the next one.
    pub(crate) fn enter_shared(
        &mut self,
        blocks: &mut BlockSource,
        worker: u32,
        part: PartInBlock,
    ) -> TurnOutcome
        requires enter { MayEnter (P.value self.old.paced) worker OwedOf.Nothing }
        requires paused { IsPaused (P.value self.old.paced) worker part Paused.Shared }
        ensures { ActsFor (P.value self.old.paced) (P.value self.new.paced) worker (Ready.Paused part Paused.Shared) (Some (KindOf.Ran part.task (part.fresh + 1))) result }
    {
        self.paced.stands();
        let mut part = part;
        match self.paced.ran_lent(worker, part.get_mut()) {
            Ok(Lent::Goes) => self.entered(Next::Running(part)),
            Ok(Lent::Over) => self.entered(Next::Stop),
            Ok(Lent::Leaves(leaving)) => {
                let left = self.paced.ran_leaving(blocks, worker, part, leaving);
                self.after_leaving(left)
            }
            Err(cause) => self.out_of_memory(cause),
        }
    }

    // How the worker goes on after the step that gave its part up, or after a failed allocation.
    fn after_leaving(&mut self, left: Result<Ran, NotLeft>) -> TurnOutcome
        requires memory { LeavingAnswers left None }
        ensures { EndsLeft (P.value self.old.paced) (P.value self.new.paced) left result }
    {
        match left {
            Ok(ran) => match ran {
                Ran::Forked { left, right } => self.entered(Next::Forked { left, right }),
                Ran::Ended { resumed } => self.entered(after_end(resumed)),
                Ran::Over(part) => {
                    drop(part);
                    self.entered(Next::Stop)
                }
                Ran::Done => self.entered(Next::Stop),
            },
            Err(failed) => self.out_of_memory(failed.cause),
        }
    }

    // The part gets a chunk.
    fn enter_chunk(&mut self, worker: u32, part: PartInBlock) -> TurnOutcome
        requires enter { MayEnter (P.value self.old.paced) worker OwedOf.Nothing }
        requires paused { IsPaused (P.value self.old.paced) worker part Paused.NeedChunk }
        requires fresh { part.fresh ≡ 0 }
        ensures { ActsAnyhow (P.value self.old.paced) (P.value self.new.paced) worker (KindOf.Chunk part.task) result }
    {
        self.paced.stands();
        let mut part = part;
        match self.paced.chunk(worker, part.get_mut()) {
            Ok(()) => self.entered(Next::Running(part)),
            Err(cause) => self.out_of_memory(cause),
        }
    }

    // The part gets a chunk, after its fresh steps.
    pub(crate) fn enter_need(&mut self, worker: u32, part: PartInBlock) -> TurnOutcome
        requires enter { MayEnter (P.value self.old.paced) worker OwedOf.Nothing }
        requires paused { IsPaused (P.value self.old.paced) worker part Paused.NeedChunk }
        ensures { ActsAnyhow (P.value self.old.paced) (P.value self.new.paced) worker (after_steps part (KindOf.Chunk part.task)) result }
    {
        if part.fresh() > 0 {
            self.enter_private(worker, part)
        } else {
            self.enter_chunk(worker, part)
        }
    }

    // The due collection of the part begins or is put off, after its fresh steps.
    pub(crate) fn enter_due(
        &mut self,
        blocks: &mut BlockSource,
        worker: u32,
        part: PartInBlock,
    ) -> TurnOutcome
        requires enter { MayEnter (P.value self.old.paced) worker OwedOf.Nothing }
        requires paused { IsPaused (P.value self.old.paced) worker part Paused.Due }
        ensures { ActsAnyhow (P.value self.old.paced) (P.value self.new.paced) worker (after_steps part (due_kind (P.value self.old.paced) part.task)) result }
    {
        if part.fresh() > 0 {
            self.enter_private(worker, part)
        } else {
            self.collect(blocks, worker, part)
        }
    }
}
