// A part's steps are committed with one that writes an object of another task.

ghost use Rattle.std.specs.Prelude.{◌≡◌, ◌<◌, ℕ, OnErr, OnOk, IfOk, None};
ghost use Rattle.entry_calls.specs.below.core_invariant.{refused, EntersOrRefuses, WorkerPartFits};
ghost use Rattle.entry_calls.specs.below.step_commit.{alone_entry, GoesAlone, IsShared};
ghost use Rattle.remote_access.specs.Other.{store_of, SameButRoom, TellsOther};
ghost use Rattle.entry_calls.specs.Ran.{LentTo};

use crate::shared::Shared;
use crate::steps_entered::alone_of;
use entry_calls::{Addr, IntReg, Lent, NotEntered, Private};
use remote_access::{OtherStep, go_on, write_number, write_reference};
use std::alloc::AllocError;

impl Shared {
    // Commits the write of a reference, which may be part of a compare and swap.
    fn enter_store(
        &mut self,
        worker: u32,
        part: &mut Private,
        object: Addr,
        field: u32,
        value: Option<Addr>,
        swap: Option<IntReg>,
    ) -> Result<(), AllocError>
        requires room { 0 < self.old.journal.room }
        requires fits { WorkerPartFits self.old worker part.old }
        requires shared { IsShared self.old part.old }
        requires free { refused self.old (alone_entry worker part.old) ≡ None }
        requires stores { (line : ℕ) × TellsOther self.old part.old (store_of swap object field value) line }
        ensures same { OnErr result (SameButRoom self.old self.new) }
        ensures back { OnErr result (part.new ≡ part.old) }
        ensures goes { OnOk result (GoesAlone self.old self.new worker part.old part.new) }
    {
        write_reference(&self.tree, &mut self.heaps, object, field, value)?;
        self.steps += part.fresh as u64 + 1;
        self.journal
            .push_reserved(alone_of(worker, part.task, part.fresh));
        go_on(&mut part.frames, swap);
        part.fresh = 0;
        Ok(())
    }

    // Commits the write of a number.
    pub(crate) fn enter_store_number(
        &mut self,
        worker: u32,
        part: &mut Private,
        object: Addr,
        field: u32,
        value: i64,
    )
        requires room { 0 < self.old.journal.room }
        requires fits { WorkerPartFits self.old worker part.old }
        requires shared { IsShared self.old part.old }
        requires free { refused self.old (alone_entry worker part.old) ≡ None }
        requires stores { (line : ℕ) × TellsOther self.old part.old (OtherStep.StoresNumber object field value) line }
        ensures { GoesAlone self.old self.new worker part.old part.new }
    {
        write_number(&mut self.heaps, object, field, value);
        self.steps += part.fresh as u64 + 1;
        self.journal
            .push_reserved(alone_of(worker, part.task, part.fresh));
        go_on(&mut part.frames, None);
        part.fresh = 0;
    }

    // Commits a write, and returns the result.
    pub(crate) fn store_other(
        &mut self,
        worker: u32,
        part: &mut Private,
        object: Addr,
        field: u32,
        value: Option<Addr>,
        swap: Option<IntReg>,
    ) -> Result<Lent, NotEntered>
        requires room { 0 < self.old.journal.room }
        requires fits { WorkerPartFits self.old worker part.old }
        requires shared { IsShared self.old part.old }
        requires free { refused self.old (alone_entry worker part.old) ≡ None }
        requires stores { (line : ℕ) × TellsOther self.old part.old (store_of swap object field value) line }
        ensures refused { EntersOrRefuses result None }
        ensures same { OnErr result (SameButRoom self.old self.new) }
        ensures back { OnErr result (part.new ≡ part.old) }
        ensures answered { IfOk result (LentTo self.old self.new worker part.old part.new) }
    {
        self.enter_store(worker, part, object, field, value, swap)?;
        Ok(Lent::Goes)
    }
}
