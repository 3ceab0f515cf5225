// A part's steps are committed with one that works on an object of another task.

ghost use Rattle.std.specs.Prelude.{◌≡◌, ◌<◌, ℕ, OnErr, IfOk, None};
ghost use Rattle.entry_calls.specs.below.core_invariant.{refused, EntersOrRefuses, WorkerPartFits};
ghost use Rattle.entry_calls.specs.below.step_commit.{alone_entry, GoesAlone, IsShared};
ghost use Rattle.remote_access.specs.Other.{IsOther, SameButRoom, TellsOther};
ghost use Rattle.shared_tree.specs.StepEnd.{HasNextLine, MayBeEntered};
ghost use Rattle.entry_calls.specs.Ran.{LentTo};

use crate::shared::Shared;
use crate::steps_entered::alone_of;
use entry_calls::{Addr, End, Instr, IntReg, Lent, NotEntered, Private, RefReg};
use remote_access::{OtherStep, named, step_on};

impl Shared {
    // What the part's next step does, which has this instruction.
    pub(crate) fn next_other(&self, part: &Private, instr: &Instr) -> OtherStep
        requires out { MayBeEntered self.now part.now }
        requires shared { IsShared self.now part.now }
        requires other { IsOther self.now part.now }
        requires next { (number : ℕ) × HasNextLine self.now part.now instr.now number }
        ensures { (number : ℕ) → HasNextLine self.now part.now instr.now number → TellsOther self.now part.now result number }
    {
        let pool = &self.heaps.pool;
        let Some(object) = named(part, *instr) else {
            unreachable!()
        };
        let owner = pool.owner(object.chunk);
        let Some(rest) = self.heaps.task_slots.rest(owner) else {
            unreachable!()
        };
        step_on(&self.tree, pool, part, &rest.heap, object, *instr)
    }

    // Commits a read of a number.
    fn enter_number(&mut self, worker: u32, part: &mut Private, register: IntReg, value: i64)
        requires room { 0 < self.old.journal.room }
        requires fits { WorkerPartFits self.old worker part.old }
        requires shared { IsShared self.old part.old }
        requires free { refused self.old (alone_entry worker part.old) ≡ None }
        requires reads { (line : ℕ) × TellsOther self.old part.old (OtherStep.SetsNumber register value) line }
        ensures { GoesAlone self.old self.new worker part.old part.new }
    {
        self.steps += part.fresh as u64 + 1;
        self.journal
            .push_reserved(alone_of(worker, part.task, part.fresh));
        let next = part.frames.next() + 1;
        part.frames.set_int(register.index() as u32, value);
        part.frames.set_next(next);
        part.fresh = 0;
    }

    // Commits a read of a reference.
    fn enter_reference(
        &mut self,
        worker: u32,
        part: &mut Private,
        register: RefReg,
        value: Option<Addr>,
    )
        requires room { 0 < self.old.journal.room }
        requires fits { WorkerPartFits self.old worker part.old }
        requires shared { IsShared self.old part.old }
        requires free { refused self.old (alone_entry worker part.old) ≡ None }
        requires reads { (line : ℕ) × TellsOther self.old part.old (OtherStep.SetsReference register value) line }
        ensures { GoesAlone self.old self.new worker part.old part.new }
    {
        self.steps += part.fresh as u64 + 1;
        self.journal
            .push_reserved(alone_of(worker, part.task, part.fresh));
        let next = part.frames.next() + 1;
        part.frames.set_reference(register.index() as u32, value);
        part.frames.set_next(next);
        part.fresh = 0;
    }

    // Commits the next step.
    pub(crate) fn enter_other(
        &mut self,
        worker: u32,
        part: &mut Private,
        does: OtherStep,
        line: u32,
    ) -> Result<Lent, NotEntered>
        requires room { 0 < self.old.journal.room }
        requires fits { WorkerPartFits self.old worker part.old }
        requires shared { IsShared self.old part.old }
        requires free { refused self.old (alone_entry worker part.old) ≡ None }
        requires tells { TellsOther self.old part.old does line }
        ensures refused { EntersOrRefuses result None }
        ensures same { OnErr result (SameButRoom self.old self.new) }
        ensures back { OnErr result (part.new ≡ part.old) }
        ensures answered { IfOk result (LentTo self.old self.new worker part.old part.new) }
    {
        match does {
            OtherStep::SetsNumber(register, value) => {
                self.enter_number(worker, part, register, value);
                Ok(Lent::Goes)
            }
            OtherStep::SetsReference(register, value) => {
                self.enter_reference(worker, part, register, value);
                Ok(Lent::Goes)
            }
            OtherStep::Stops(owner) => {
                let end = End::Entangled(part.task, owner);
                self.enter_halt(worker, part, end);
                Ok(Lent::Over)
            }
            OtherStep::Traps(kind) => {
                let end = End::Trapped(kind, part.task, line);
                self.enter_halt(worker, part, end);
                Ok(Lent::Over)
            }
            OtherStep::StoresReference(object, field, value) => {
                self.store_other(worker, part, object, field, value, None)
            }
            OtherStep::Swaps(register, object, field, value) => {
                self.store_other(worker, part, object, field, value, Some(register))
            }
            OtherStep::StoresNumber(object, field, value) => {
                self.enter_store_number(worker, part, object, field, value);
                Ok(Lent::Goes)
            }
        }
    }
}
