// Objects of a heap are marked.

ghost use Rattle.std.specs.Prelude.{◌≡◌, ◌<◌, ◌≤◌, ℕ, None, min};
ghost use Rattle.entry_calls.specs.below.run_trace.{mark_limit};
ghost use Rattle.entry_calls.specs.below.run_ledger.{heap_of, left_in};
ghost use Rattle.entry_calls.specs.below.core_invariant.{refused, Enters, EachPartStillFits, accounts};
ghost use Rattle.entry_calls.specs.Calls.{MarksMore};

use crate::shared::Shared;
use entry_calls::{Entry, Kind, Refused, first_cause, marking_cause};

impl Shared {
    // Why the entry is refused.
    fn marking_refused(&self, worker: u32, t: u32) -> Option<Refused>
        ensures { (n : ℕ) → result ≡ refused self.now (record { worker = worker; kind = Kind.More t n }) }
    {
        let first = first_cause(self.end, self.steps, self.settings, worker, false);
        if first.is_some() {
            return first;
        }
        let marking = marking_cause(&self.tree, &self.heaps.task_slots, t);
        if marking.is_some() {
            return marking;
        }
        if self.is_marked(t) {
            Some(Refused::Marked)
        } else {
            None
        }
    }

    // Makes the entry.
    fn enter_marking(&mut self, worker: u32, t: u32, n: u32) -> u32
        requires room { 0 < self.old.journal.room }
        requires some { 0 < n }
        requires few { n ≤ mark_limit }
        requires free { refused self.old (record { worker = worker; kind = Kind.More t n }) ≡ None }
        ensures count { result ≡ min n (left_in (heap_of (accounts self.old) t)) }
        ensures enters { Enters self.old self.new (record { worker = worker; kind = Kind.More t n }) }
        ensures fits { EachPartStillFits self.old self.new }
    {
        let Some(mut marking) = self.heaps.task_slots.take_marking(t) else {
            unreachable!()
        };
        let Some(rest) = self.heaps.task_slots.rest(t) else {
            unreachable!()
        };
        let kept = self.heaps.task_slots.kept(t);
        let count = marking.get_mut().mark_objects(&rest.heap, kept, n);
        self.heaps.task_slots.put_marking(t, marking);
        self.journal
            .push_reserved(Entry::new(worker, Kind::More(t, n)));
        count
    }

    /// Marks up to `n` more objects of a heap, and returns how many. It doesn't allocate.
    pub fn mark_objects(&mut self, worker: u32, t: u32, n: u32) -> Result<u32, Refused>
        requires room { 0 < self.old.journal.room }
        requires some { 0 < n }
        requires few { n ≤ mark_limit }
        ensures { MarksMore self.old self.new worker t n result }
    {
        match self.marking_refused(worker, t) {
            Some(cause) => Err(cause),
            None => Ok(self.enter_marking(worker, t, n)),
        }
    }
}
