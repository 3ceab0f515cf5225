// A part's private steps are committed.

ghost use Rattle.std.specs.Prelude.{◌≡◌, ◌<◌, None};
ghost use Rattle.entry_calls.specs.below.core_invariant.{refused, Enters, WorkerPartFits, OthersFit};
ghost use Rattle.entry_calls.specs.Calls.{EntersSteps};

use crate::shared::Shared;
use entry_calls::{Entry, Kind, Private, Refused, first_cause};

impl Shared {
    // Makes the entry.
    fn enter_steps(&mut self, worker: u32, part: &Private)
        requires room { 0 < self.old.journal.room }
        requires fits { WorkerPartFits self.old worker part.now }
        requires fresh { 0 < part.now.fresh }
        requires free { refused self.old (record { worker = worker; kind = Kind.Ran part.now.task part.now.fresh }) ≡ None }
        ensures enters { Enters self.old self.new (record { worker = worker; kind = Kind.Ran part.now.task part.now.fresh }) }
        ensures end { self.new.end ≡ self.old.end }
        ensures fits { WorkerPartFits self.new worker (record part.now { fresh = 0 }) }
        ensures others { OthersFit self.old self.new worker }
    {
        self.steps += part.fresh as u64;
        self.journal
            .push_reserved(Entry::new(worker, Kind::Ran(part.task, part.fresh)));
    }

    /// Commits the fresh steps of a part, all private.
    pub fn ran_private(&mut self, worker: u32, part: &mut Private) -> Result<(), Refused>
        requires room { 0 < self.old.journal.room }
        requires fits { WorkerPartFits self.old worker part.old }
        requires fresh { 0 < part.old.fresh }
        ensures { EntersSteps self.old self.new worker part.old part.new result }
    {
        if let Some(cause) = first_cause(self.end, self.steps, self.settings, worker, false) {
            return Err(cause);
        }
        self.enter_steps(worker, part);
        part.begin_entry();
        Ok(())
    }
}
