// The heap of a waiting task is swept.

ghost use Rattle.std.specs.Prelude.{◌≡◌, ◌==◌, ◌<◌, None};
ghost use Rattle.entry_calls.specs.below.run_ledger.{unless_wrong_number, refused_unless, heap_of, left_in, marked_in, sweep_number};
ghost use Rattle.entry_calls.specs.below.core_invariant.{refused, Enters, EachPartStillFits, accounts};
ghost use Rattle.entry_calls.specs.below.heap_marking.{marking_cause};
ghost use Rattle.entry_calls.specs.Calls.{SweepsHeap};

use crate::shared::Shared;
use entry_calls::{Entry, Kind, Refused, drop_unmarked, first_cause, forget_kept, marking_cause};

impl Shared {
    // Why a heap that is being marked isn't swept with this number of units released.
    fn given_cause(&self, t: u32, given: u32) -> Option<Refused>
        requires goes { (accounts self.now).end ≡ None }
        requires marking { marking_cause self.now t ≡ None }
        ensures { result ≡ refused_unless (left_in (heap_of (accounts self.now) t) == 0) (Refused.Left (marked_in (heap_of (accounts self.now) t))) (unless_wrong_number given (sweep_number (accounts self.now).machine (heap_of (accounts self.now) t)) None) }
    {
        if !self.is_marked(t) {
            return match self.heaps.task_slots.marking(t) {
                Some(marking) => Some(Refused::Left(marking.marked() as u32)),
                None => unreachable!(),
            };
        }
        let units = self.would_give(t);
        if given == units {
            None
        } else {
            Some(Refused::Count(given, units))
        }
    }

    // Why the entry is refused.
    fn sweep_refused(&self, worker: u32, t: u32, given: u32) -> Option<Refused>
        ensures { result ≡ refused self.now (record { worker = worker; kind = Kind.Sweep t given }) }
    {
        let first = first_cause(self.end, self.steps, self.settings, worker, false);
        if first.is_some() {
            return first;
        }
        let marking = marking_cause(&self.tree, &self.heaps.task_slots, t);
        if marking.is_some() {
            return marking;
        }
        self.given_cause(t, given)
    }

    // Makes the entry, and keeps the buffers of the marking for the next.
    fn enter_sweep(&mut self, worker: u32, t: u32, given: u32)
        requires room { 0 < self.old.journal.room }
        requires free { refused self.old (record { worker = worker; kind = Kind.Sweep t given }) ≡ None }
        ensures enters { Enters self.old self.new (record { worker = worker; kind = Kind.Sweep t given }) }
        ensures fits { EachPartStillFits self.old self.new }
    {
        self.room = drop_unmarked(&mut self.heaps, t);
        forget_kept(&mut self.heaps.task_slots, t);
        self.journal
            .push_reserved(Entry::new(worker, Kind::Sweep(t, given)));
    }

    /// How many units of 1,024 words a sweep of a marked heap releases.
    pub fn would_give(&self, t: u32) -> u32
        requires goes { (accounts self.now).end ≡ None }
        requires marked { marking_cause self.now t ≡ None }
        requires none_left { left_in (heap_of (accounts self.now) t) ≡ 0 }
        ensures { result ≡ sweep_number (accounts self.now).machine (heap_of (accounts self.now) t) }
    {
        let Some(rest) = self.heaps.task_slots.rest(t) else {
            unreachable!()
        };
        let Some(marking) = self.heaps.task_slots.marking(t) else {
            unreachable!()
        };
        marking.would_give(&rest.heap)
    }

    /// The heap of a waiting task is swept: of its objects exactly those that were reachable at the task's fork stay,
    /// each at its address, and chunks without an object are released. From then on its overwritten references aren't
    /// kept. It doesn't allocate.
    pub fn sweep(&mut self, worker: u32, t: u32, given: u32) -> Result<(), Refused>
        requires room { 0 < self.old.journal.room }
        ensures { SweepsHeap self.old self.new worker t given result }
    {
        match self.sweep_refused(worker, t, given) {
            Some(cause) => Err(cause),
            None => {
                self.enter_sweep(worker, t, given);
                Ok(())
            }
        }
    }
}
