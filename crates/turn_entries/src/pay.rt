//! The entries that a worker owes to the collections of waiting tasks' heaps, and the end without fuel.
ghost use Rattle.std.specs.Prelude.{◌≡◌, Some, false};
ghost use Rattle.entry_calls.specs.below.run_trace.{Kind as KindOf};
ghost use Rattle.entry_calls.specs.below.run_ledger.{Owed as OwedOf, heap_of, sweep_number, marked_at_once};
ghost use Rattle.entry_calls.specs.below.core_invariant.{accounts};
ghost use Rattle.turn_entries.specs.Acts.{ActsAnyhow, ActsFor, EndsPaid};
ghost use Rattle.turn_entries.specs.Next.{is_out_of_memory};
ghost use Rattle.turn_entries.specs.Parts.{next_after, BringsTo};
ghost use Rattle.turn_entries.specs.Values.{MayEnd, MayEnter};

use crate::act::TurnOutcome;
use crate::between_turns::{Next, Ready};
use crate::run::Run;
use entry_calls::{EntryCalls, MARKED_AT_ONCE};

// How a worker that brought this goes on after it has paid what it owed.
fn next_after(ready: Ready) -> Next
    ensures { result ≡ next_after ready }
{
    match ready {
        Ready::Paused(part, _) => Next::Running(part),
        Ready::Copied(copied) => Next::Copied(copied),
        Ready::Found(Some(task)) => Next::Found(task),
        Ready::Found(None) => Next::Idle,
        Ready::OutOfMemory => Next::Stop,
    }
}

impl<P: EntryCalls + Drop> Run<P> {
    // What was owed is paid: the worker goes on with what it brought.
    fn paid(&self, ready: Ready) -> TurnOutcome
        ensures { EndsPaid (P.value self.now.paced) ready result }
    {
        let next = next_after(ready);
        self.entered(next)
    }

    /// A marking begins.
    pub(crate) fn pay_mark(&mut self, worker: u32, ready: Ready, task: u32) -> TurnOutcome
        requires enter { MayEnter (P.value self.old.paced) worker (OwedOf.Mark task) }
        requires met { is_out_of_memory ready ≡ false }
        requires brings { BringsTo (P.value self.old.paced) worker ready }
        ensures { ActsFor (P.value self.old.paced) (P.value self.new.paced) worker ready (Some (KindOf.Mark task)) result }
    {
        self.paced.stands();
        match self.paced.mark(worker, task) {
            Ok(()) => self.paid(ready),
            Err(cause) => self.out_of_memory(cause),
        }
    }

    /// More objects are marked.
    pub(crate) fn pay_more(&mut self, worker: u32, ready: Ready, task: u32) -> TurnOutcome
        requires enter { MayEnter (P.value self.old.paced) worker (OwedOf.More task) }
        requires met { is_out_of_memory ready ≡ false }
        requires brings { BringsTo (P.value self.old.paced) worker ready }
        ensures { ActsFor (P.value self.old.paced) (P.value self.new.paced) worker ready (Some (KindOf.More task marked_at_once)) result }
    {
        self.paced.stands();
        match self.paced.mark_objects(worker, task, MARKED_AT_ONCE) {
            Ok(_) => self.paid(ready),
            Err(_) => unreachable!(),
        }
    }

    /// A heap is swept.
    pub(crate) fn pay_sweep(&mut self, worker: u32, ready: Ready, task: u32) -> TurnOutcome
        requires enter { MayEnter (P.value self.old.paced) worker (OwedOf.Sweep task) }
        requires met { is_out_of_memory ready ≡ false }
        requires brings { BringsTo (P.value self.old.paced) worker ready }
        ensures { ActsFor (P.value self.old.paced) (P.value self.new.paced) worker ready (Some (KindOf.Sweep task (sweep_number (accounts (P.value self.old.paced)).machine (heap_of (accounts (P.value self.old.paced)) task)))) result }
    {
        self.paced.stands();
        let given = self.paced.would_give(task);
        match self.paced.sweep(worker, task, given) {
            Ok(()) => self.paid(ready),
            Err(_) => unreachable!(),
        }
    }

    /// The run ends without fuel.
    pub(crate) fn end_for_fuel(&mut self, worker: u32) -> TurnOutcome
        requires end { MayEnd (P.value self.old.paced) worker }
        ensures { ActsAnyhow (P.value self.old.paced) (P.value self.new.paced) worker KindOf.Fuel result }
    {
        self.paced.stands();
        match self.paced.fuel(worker) {
            Ok(()) => self.entered(Next::Stop),
            Err(_) => unreachable!(),
        }
    }
}
