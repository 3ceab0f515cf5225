// A leaf collection of a part begins.

ghost use Rattle.std.specs.Prelude.{◌≡◌, ◌<◌, IfOk, OnErr, OnOk, None};
ghost use Rattle.entry_calls.specs.below.core_invariant.{refused, Enters, IsSamePart, WorkerPartFits, OthersFit, CopyingHasBegun};
ghost use Rattle.entry_calls.specs.Calls.{BeginsLeaf};

use crate::shared::Shared;
use entry_calls::{
    Addr, Entry, Kind, NotEntered, Private, Refused, ToChunks, begin_with, chunks_for, due_cause,
    first_cause, words_asked,
};
use std::alloc::AllocError;

impl Shared {
    // Why the entry is refused.
    fn leaf_begin_refused(&self, worker: u32, part: &Private) -> Option<Refused>
        requires fits { WorkerPartFits self.now worker part.now }
        requires fresh { part.now.fresh ≡ 0 }
        ensures { result ≡ refused self.now (record { worker = worker; kind = Kind.Begin part.now.task }) }
    {
        let first = first_cause(self.end, self.steps, self.settings, worker, false);
        if first.is_some() {
            return first;
        }
        let due = due_cause(part, words_asked(part, &self.program));
        if due.is_some() {
            return due;
        }
        if self.pool_enough(part) {
            None
        } else {
            Some(Refused::PoolShort(self.heaps.pool.in_use()))
        }
    }

    // Makes the entry.
    fn enter_begin(
        &mut self,
        worker: u32,
        task: u32,
        part: &mut Private,
    ) -> Result<(Vec<Addr>, ToChunks), AllocError>
        requires room { 0 < self.old.journal.room }
        requires task { task ≡ part.old.task }
        requires fits { WorkerPartFits self.old worker part.old }
        requires fresh { part.old.fresh ≡ 0 }
        requires free { refused self.old (record { worker = worker; kind = Kind.Begin part.old.task }) ≡ None }
        ensures same { OnErr result (self.new ≡ self.old) }
        ensures back { OnErr result (IsSamePart part.old part.new) }
        ensures begun { IfOk result (λ r. CopyingHasBegun part.old part.new r.0.items r.1) }
        ensures enters { OnOk result (Enters self.old self.new (record { worker = worker; kind = Kind.Begin part.old.task })) }
        ensures fits { WorkerPartFits self.new worker part.new }
        ensures others { OnOk result (OthersFit self.old self.new worker) }
    {
        self.stands();
        let roots = self.roots(part)?;
        let count = chunks_for(part.heap.small_words()) as u32;
        let alloc = self.heaps.task_slots.allocator();
        let to = begin_with(alloc, &mut self.heaps.pool, part, &roots, count)?;
        self.journal
            .push_reserved(Entry::new(worker, Kind::Begin(task)));
        Ok((roots, to))
    }

    /// A due leaf collection of a part begins: returns its roots, and new chunks with all that copying needs.
    pub fn leaf_begin(
        &mut self,
        worker: u32,
        part: &mut Private,
    ) -> Result<(Vec<Addr>, ToChunks), NotEntered>
        requires room { 0 < self.old.journal.room }
        requires fits { WorkerPartFits self.old worker part.old }
        requires fresh { part.old.fresh ≡ 0 }
        ensures { BeginsLeaf self.old self.new worker part.old part.new result }
    {
        if let Some(cause) = self.leaf_begin_refused(worker, part) {
            return Err(NotEntered::Refuses(cause));
        }
        let task = part.task;
        Ok(self.enter_begin(worker, task, part)?)
    }
}
