// A leaf collection is put off.

ghost use Rattle.std.specs.Prelude.{◌≡◌, ◌<◌, None};
ghost use Rattle.entry_calls.specs.below.core_invariant.{refused, Enters, WorkerPartFits, OthersFit};
ghost use Rattle.entry_calls.specs.Calls.{PutsOff};

use crate::shared::Shared;
use entry_calls::{Entry, Kind, Private, Refused, due_cause, first_cause, words_asked};

impl Shared {
    // Why the entry is refused.
    fn put_off_refused(&self, worker: u32, part: &Private) -> Option<Refused>
        requires fits { WorkerPartFits self.now worker part.now }
        requires fresh { part.now.fresh ≡ 0 }
        ensures { result ≡ refused self.now (record { worker = worker; kind = Kind.PutOff part.now.task }) }
    {
        let first = first_cause(self.end, self.steps, self.settings, worker, false);
        if first.is_some() {
            return first;
        }
        let due = due_cause(part, words_asked(part, &self.program));
        if due.is_some() {
            return due;
        }
        if self.pool_enough(part) {
            Some(Refused::PoolEnough(self.heaps.pool.in_use()))
        } else {
            None
        }
    }

    // Makes the entry.
    fn enter_put_off(&mut self, worker: u32, task: u32, part: &mut Private)
        requires task { task ≡ part.old.task }
        requires room { 0 < self.old.journal.room }
        requires fits { WorkerPartFits self.old worker part.old }
        requires fresh { part.old.fresh ≡ 0 }
        requires free { refused self.old (record { worker = worker; kind = Kind.PutOff part.old.task }) ≡ None }
        ensures part { part.new ≡ record part.old { heap = record part.old.heap { since = 0 } } }
        ensures enters { Enters self.old self.new (record { worker = worker; kind = Kind.PutOff part.old.task }) }
        ensures fits { WorkerPartFits self.new worker part.new }
        ensures others { OthersFit self.old self.new worker }
    {
        self.journal
            .push_reserved(Entry::new(worker, Kind::PutOff(task)));
        part.reset_since();
    }

    /// A due leaf collection of a part is put off, since too few chunks are free for it: its words are counted from 0
    /// on.
    pub fn put_off(&mut self, worker: u32, part: &mut Private) -> Result<(), Refused>
        requires room { 0 < self.old.journal.room }
        requires fits { WorkerPartFits self.old worker part.old }
        requires fresh { part.old.fresh ≡ 0 }
        ensures { PutsOff self.old self.new worker part.old part.new result }
    {
        match self.put_off_refused(worker, part) {
            Some(cause) => Err(cause),
            None => {
                let task = part.task;
                self.enter_put_off(worker, task, part);
                Ok(())
            }
        }
    }
}
