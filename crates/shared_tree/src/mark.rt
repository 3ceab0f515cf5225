// The marking of a heap begins.

ghost use Rattle.std.specs.Prelude.{◌≡◌, ◌<◌, ℕ, IfOk, OnErr, OnOk, None};
ghost use Rattle.entry_calls.specs.below.run_ledger.{heap_of};
ghost use Rattle.entry_calls.specs.below.refinement.{CanGoOnMarking};
ghost use Rattle.entry_calls.specs.below.core_invariant.{refused, Enters, EachPartStillFits, accounts, value_of};
ghost use Rattle.entry_calls.specs.Calls.{BeginsMarking};

use crate::shared::Shared;
use entry_calls::{
    BoxedSlot, Entry, Kind, Marking, MarkingRoom, NotEntered, Refused, begin_marking, first_cause,
    waiting_cause, words_cause,
};
use std::alloc::AllocError;
use std::mem;

impl Shared {
    /// Why the entry is refused.
    pub fn mark_refused(&self, worker: u32, t: u32) -> Option<Refused>
        ensures { result ≡ refused self.now (record { worker = worker; kind = Kind.Mark t }) }
    {
        let first = first_cause(self.end, self.steps, self.settings, worker, false);
        if first.is_some() {
            return first;
        }
        let waiting = waiting_cause(&self.tree, &self.heaps.task_slots, t);
        if waiting.is_some() {
            return waiting;
        }
        if self.heaps.task_slots.marking(t).is_some() {
            return Some(Refused::Marking);
        }
        words_cause(self.settings, self.words_at(t))
    }

    // A marking that has marked nothing yet, of the heap of a waiting task. It uses the kept buffers.
    fn marking_of(&mut self, t: u32) -> Result<Marking, AllocError>
        requires free { (k : ℕ) × (refused self.old (record { worker = k; kind = Kind.Mark t }) ≡ None) }
        ensures same { self.new ≡ self.old }
        ensures none { IfOk result (λ m. m.marked ≡ 0) }
        ensures goes { IfOk result (λ m. CanGoOnMarking (value_of self.old) t (heap_of (accounts self.old) t).snapshot m) }
    {
        self.stands();
        let alloc = self.heaps.task_slots.allocator();
        let room = mem::replace(&mut self.room, MarkingRoom::new(alloc));
        begin_marking(alloc, room, &self.heaps, t)
    }

    // Makes the entry.
    fn enter_mark(&mut self, worker: u32, t: u32, marking: Marking) -> Result<(), AllocError>
        requires room { 0 < self.old.journal.room }
        requires free { refused self.old (record { worker = worker; kind = Kind.Mark t }) ≡ None }
        requires none { marking.marked ≡ 0 }
        requires goes { CanGoOnMarking (value_of self.old) t (heap_of (accounts self.old) t).snapshot marking }
        ensures same { OnErr result (self.new ≡ self.old) }
        ensures enters { OnOk result (Enters self.old self.new (record { worker = worker; kind = Kind.Mark t })) }
        ensures fits { OnOk result (EachPartStillFits self.old self.new) }
    {
        let marking = BoxedSlot::new(self.heaps.task_slots.allocator(), marking)?;
        self.heaps.task_slots.put_marking(t, marking);
        self.journal
            .push_reserved(Entry::new(worker, Kind::Mark(t)));
        Ok(())
    }

    /// The marking of the heap of a waiting task begins: from what the task's registers hold, and from the fields of
    /// ancestors' heaps that point down into it.
    pub fn mark(&mut self, worker: u32, t: u32) -> Result<(), NotEntered>
        requires room { 0 < self.old.journal.room }
        ensures { BeginsMarking self.old self.new worker t result }
    {
        if let Some(cause) = self.mark_refused(worker, t) {
            return Err(NotEntered::Refuses(cause));
        }
        let marking = self.marking_of(t)?;
        self.enter_mark(worker, t, marking)?;
        Ok(())
    }
}
