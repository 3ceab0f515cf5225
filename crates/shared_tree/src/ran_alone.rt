// A part's steps are committed with one that isn't private and involves no other task.

ghost use Rattle.std.specs.Prelude.{◌≡◌, ◌≢◌, ◌<◌, ℕ, OnErr, OnOk, None};
ghost use Rattle.entry_calls.specs.below.hh_model.{ended_by, step};
ghost use Rattle.entry_calls.specs.below.core_invariant.{refused, WorkerPartFits};
ghost use Rattle.entry_calls.specs.below.step_commit.{alone_entry, then_accounts, GoesAlone, HaltsAlone, IsShared, EndingTells};

use crate::shared::Shared;
use crate::steps_entered::alone_of;
use entry_calls::{End, Ending, Private, RunEnd};
use std::alloc::AllocError;

impl Shared {
    // Commits an output.
    pub(crate) fn enter_output(
        &mut self,
        worker: u32,
        part: &mut Private,
        value: i64,
    ) -> Result<(), AllocError>
        requires room { 0 < self.old.journal.room }
        requires fits { WorkerPartFits self.old worker part.old }
        requires shared { IsShared self.old part.old }
        requires free { refused self.old (alone_entry worker part.old) ≡ None }
        requires prints { (line : ℕ) × EndingTells self.old part.old (Ending.Prints value) line }
        ensures same { OnErr result (self.new ≡ self.old) }
        ensures back { OnErr result (part.new ≡ part.old) }
        ensures goes { OnOk result (GoesAlone self.old self.new worker part.old part.new) }
    {
        self.outputs.push(value)?;
        self.steps += part.fresh as u64 + 1;
        self.journal
            .push_reserved(alone_of(worker, part.task, part.fresh));
        let next = part.frames.next() + 1;
        part.frames.set_next(next);
        part.fresh = 0;
        Ok(())
    }

    // Commits a step that ends the run and leaves all else unchanged: a trap, or a read that is stopped.
    pub(crate) fn enter_halt(&mut self, worker: u32, part: &mut Private, end: End)
        requires room { 0 < self.old.journal.room }
        requires fits { WorkerPartFits self.old worker part.old }
        requires shared { IsShared self.old part.old }
        requires free { refused self.old (alone_entry worker part.old) ≡ None }
        requires other { end ≢ End.Done }
        requires ends { step self.old.program (then_accounts self.old part.old).machine part.old.task ≡ ended_by (then_accounts self.old part.old).machine end }
        ensures { HaltsAlone self.old self.new worker part.old part.new }
    {
        self.steps += part.fresh as u64 + 1;
        self.journal
            .push_reserved(alone_of(worker, part.task, part.fresh));
        self.end = Some(RunEnd::Machine(end));
        part.fresh = 0;
    }
}
