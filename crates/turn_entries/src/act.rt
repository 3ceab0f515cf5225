//! What a worker does with the shared value in its turn: at most one entry.
ghost use Rattle.std.specs.Prelude.{◌≡◌, ◌<◌};
ghost use Rattle.turn_entries.specs.Acts.{Acts, EndsEntered, EndsHalted};
ghost use Rattle.turn_entries.specs.Parts.{BringsTo};

use crate::between_turns::{Next, Ready};
use crate::run::Run;
use entry_calls::{BlockSource, EntryCalls, NotEntered, Paused};

/// The outcome of a turn, and how the worker goes on after it.
#[derive(Drop)]
pub enum TurnOutcome {
    /// One entry was made.
    Entered(Next),
    /// No entry was made: the run is over, an allocation failed, the task that was found can't be taken, or none was
    /// found.
    Same(Next),
}

impl<P: EntryCalls + Drop> Run<P> {
    // An entry was made. If it ended the run, the worker stops. It is inlined, since each caller knows what `next` is,
    // and so what to drop.
    #[inline(always)]
    pub(crate) fn entered(&self, next: Next) -> TurnOutcome
        ensures { EndsEntered (P.value self.now.paced) next result }
    {
        self.paced.stands();
        if self.paced.has_ended() {
            TurnOutcome::Entered(Next::Stop)
        } else {
            TurnOutcome::Entered(next)
        }
    }

    // An allocation failed, and no entry was made.
    #[cold]
    pub(crate) fn halted(&mut self) -> TurnOutcome
        ensures { EndsHalted (P.value self.old.paced) (P.value self.new.paced) result }
    {
        self.paced.halt();
        TurnOutcome::Same(Next::Stop)
    }

    // No entry was made: the only possible cause is a failed allocation.
    #[cold]
    pub(crate) fn out_of_memory(&mut self, cause: NotEntered) -> TurnOutcome
        requires cause { cause ≡ NotEntered.NoMemory }
        ensures { EndsHalted (P.value self.old.paced) (P.value self.new.paced) result }
    {
        match cause {
            NotEntered::NoMemory => self.halted(),
            NotEntered::Refuses(_) => unreachable!(),
        }
    }

    /// What the worker does in its turn: if the run isn't over it ends it without fuel, or makes the entry that it
    /// owes, or otherwise the one that it came for. The part of a task that it takes, and the new chunks of a collection
    /// that begins, get blocks.
    pub fn act(&mut self, blocks: &mut BlockSource, worker: u32, ready: Ready) -> TurnOutcome
        requires worker { worker < (P.value self.old.paced).settings.workers }
        requires brings { BringsTo (P.value self.old.paced) worker ready }
        ensures { Acts (P.value self.old.paced) (P.value self.new.paced) worker ready result }
    {
        if let Some(first) = self.comes_first(worker, &ready) {
            return self.act_first(worker, ready, first);
        }
        self.paced.stands();
        match ready {
            Ready::Paused(part, why) => match why {
                Paused::Shared => self.enter_shared(blocks, worker, part),
                Paused::Spent => self.enter_private(worker, part),
                Paused::Due => self.enter_due(blocks, worker, part),
                Paused::NeedChunk => self.enter_need(worker, part),
            },
            Ready::Copied(copied) => self.end_leaf(worker, copied),
            Ready::Found(found) => match found {
                Some(task) => self.take_task(blocks, worker, task),
                None => TurnOutcome::Same(Next::Waits),
            },
            Ready::OutOfMemory => unreachable!(),
        }
    }
}
