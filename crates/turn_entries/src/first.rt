//! What comes before the entry that a worker came for.
ghost use Rattle.std.specs.Prelude.{◌≡◌, ◌<◌};
ghost use Rattle.turn_entries.specs.First.{ActsFirst, ComesFirst, HasFirst};
ghost use Rattle.turn_entries.specs.Parts.{BringsTo};
ghost use Rattle.turn_entries.specs.Values.{NoEntryMade};

use crate::act::TurnOutcome;
use crate::between_turns::{Next, Ready};
use crate::run::Run;
use entry_calls::{EntryCalls, Owed};

/// Why a worker doesn't make the entry that it came for.
#[derive(Clone, Copy)]
pub(crate) enum First {
    /// The run is over.
    Over,
    /// An allocation failed.
    OutOfMemory,
    /// The fuel is used up: the run ends.
    Fuel,
    /// The worker owes the beginning of this task's marking.
    Mark(u32),
    /// It owes more marking of this task's heap.
    More(u32),
    /// It owes the sweep of this task's heap.
    Sweep(u32),
}

impl<P: EntryCalls + Drop> Run<P> {
    /// What comes before the entry that the worker came for, if anything. Reserves capacity for the entry to be made.
    pub(crate) fn comes_first(&mut self, worker: u32, ready: &Ready) -> Option<First>
        requires worker { worker < (P.value self.old.paced).settings.workers }
        ensures none { NoEntryMade (P.value self.old.paced) (P.value self.new.paced) }
        ensures first { ComesFirst (P.value self.old.paced) (P.value self.new.paced) worker ready.now result }
    {
        if !self.goes_on() {
            return Some(First::Over);
        }
        if ready.is_out_of_memory() {
            return Some(First::OutOfMemory);
        }
        let Ok(()) = self.paced.reserve() else {
            return Some(First::OutOfMemory);
        };
        self.paced.stands();
        if self.paced.refused_first(worker).is_some() {
            return Some(First::Fuel);
        }
        match self.paced.owed(worker) {
            Owed::Nothing => None,
            Owed::Mark(task) => Some(First::Mark(task)),
            Owed::More(task) => Some(First::More(task)),
            Owed::Sweep(task) => Some(First::Sweep(task)),
        }
    }

    /// Does what comes before the entry that the worker came for.
    pub(crate) fn act_first(&mut self, worker: u32, ready: Ready, first: First) -> TurnOutcome
        requires first { HasFirst (P.value self.old.paced) worker ready first }
        requires brings { BringsTo (P.value self.old.paced) worker ready }
        ensures { ActsFirst (P.value self.old.paced) (P.value self.new.paced) worker ready first result }
    {
        match first {
            First::Over => {
                drop(ready);
                TurnOutcome::Same(Next::Stop)
            }
            First::OutOfMemory => {
                drop(ready);
                self.halted()
            }
            First::Fuel => {
                drop(ready);
                self.end_for_fuel(worker)
            }
            First::Mark(task) => self.pay_mark(worker, ready, task),
            First::More(task) => self.pay_more(worker, ready, task),
            First::Sweep(task) => self.pay_sweep(worker, ready, task),
        }
    }
}
