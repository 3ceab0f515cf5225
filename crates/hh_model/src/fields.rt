// Instructions that look up an object or make one.

ghost use Rattle.std.specs.Prelude.{◌≡◌, ◌<◌, ◌+◌, ◌^◌, length, slice_get, IfSome, OnOk, OnErr, true};
ghost use Rattle.hh_model.specs.Effect.{effect, row_of};
ghost use Rattle.hh_model.specs.PathLaw.{PathIsPrecedenceIn};
ghost use Rattle.hh_model.specs.Step.{follow, is_running, setting};

use crate::data::MachineState;
use hh_lang::{Instr, IntReg, RefReg};
use std::alloc::{AllocError, Global};

impl MachineState {
    /// A number register gets what a number field holds, or the task traps.
    #[inline(always)]
    pub(crate) fn read_int(
        &mut self,
        t: u32,
        line: u32,
        target: IntReg,
        object: RefReg,
        index: IntReg,
    )
        requires made { t < length self.old.tasks }
        requires next { IfSome (slice_get self.old.tasks t) (λ x. x.top.next + 1 < 2 ^ 32) }
        ensures { IfSome (slice_get self.old.tasks t) (λ x. self.new ≡ follow self.old t x line (effect (setting self.old t x) x.top self.old.store (Instr.Geti target object index))) }
    {
        let found = self.int_field(t, object, index);
        self.set_found(t, line, target, found);
    }

    /// A reference register gets what a reference field holds, or the task traps or is stopped.
    #[inline(always)]
    pub(crate) fn read_reference(
        &mut self,
        t: u32,
        line: u32,
        target: RefReg,
        object: RefReg,
        index: IntReg,
    )
        requires made { t < length self.old.tasks }
        requires running { is_running (slice_get self.old.tasks t) ≡ true }
        requires path { PathIsPrecedenceIn self.old }
        requires next { IfSome (slice_get self.old.tasks t) (λ x. x.top.next + 1 < 2 ^ 32) }
        ensures { IfSome (slice_get self.old.tasks t) (λ x. self.new ≡ follow self.old t x line (effect (setting self.old t x) x.top self.old.store (Instr.Getr target object index))) }
    {
        let found = self.reference_field(t, object, index);
        self.read_found(t, line, target, found);
    }

    /// A number field gets what a register holds, or the task traps.
    #[inline(always)]
    pub(crate) fn put_int(
        &mut self,
        t: u32,
        line: u32,
        object: RefReg,
        index: IntReg,
        value: IntReg,
    )
        requires made { t < length self.old.tasks }
        requires next { IfSome (slice_get self.old.tasks t) (λ x. x.top.next + 1 < 2 ^ 32) }
        ensures { IfSome (slice_get self.old.tasks t) (λ x. self.new ≡ follow self.old t x line (effect (setting self.old t x) x.top self.old.store (Instr.Puti object index value))) }
    {
        let found = self.int_place(t, object, index);
        self.put_int_found(t, line, found, value);
    }

    /// A reference field gets what a register holds, or the task traps.
    #[inline(always)]
    pub(crate) fn put_reference(
        &mut self,
        t: u32,
        line: u32,
        object: RefReg,
        index: IntReg,
        value: RefReg,
    )
        requires made { t < length self.old.tasks }
        requires next { IfSome (slice_get self.old.tasks t) (λ x. x.top.next + 1 < 2 ^ 32) }
        ensures { IfSome (slice_get self.old.tasks t) (λ x. self.new ≡ follow self.old t x line (effect (setting self.old t x) x.top self.old.store (Instr.Putr object index value))) }
    {
        let found = self.reference_place(t, object, index);
        self.put_reference_found(t, line, found, value);
    }

    /// A number register gets the number of an object's number fields, or the task traps.
    pub(crate) fn count_ints(&mut self, t: u32, line: u32, target: IntReg, object: RefReg)
        requires made { t < length self.old.tasks }
        requires next { IfSome (slice_get self.old.tasks t) (λ x. x.top.next + 1 < 2 ^ 32) }
        ensures { IfSome (slice_get self.old.tasks t) (λ x. self.new ≡ follow self.old t x line (effect (setting self.old t x) x.top self.old.store (Instr.Cnti target object))) }
    {
        let found = self.int_count(t, object);
        self.set_found(t, line, target, found);
    }

    /// A number register gets the number of an object's reference fields, or the task traps.
    pub(crate) fn count_references(&mut self, t: u32, line: u32, target: IntReg, object: RefReg)
        requires made { t < length self.old.tasks }
        requires next { IfSome (slice_get self.old.tasks t) (λ x. x.top.next + 1 < 2 ^ 32) }
        ensures { IfSome (slice_get self.old.tasks t) (λ x. self.new ≡ follow self.old t x line (effect (setting self.old t x) x.top self.old.store (Instr.Cntr target object))) }
    {
        let found = self.reference_count(t, object);
        self.set_found(t, line, target, found);
    }

    /// An object becomes immutable, or the task traps.
    pub(crate) fn freeze_own(&mut self, t: u32, line: u32, object: RefReg)
        requires made { t < length self.old.tasks }
        requires next { IfSome (slice_get self.old.tasks t) (λ x. x.top.next + 1 < 2 ^ 32) }
        ensures { IfSome (slice_get self.old.tasks t) (λ x. self.new ≡ follow self.old t x line (effect (setting self.old t x) x.top self.old.store (Instr.Freeze object))) }
    {
        let found = self.own_object(t, object);
        self.freeze_found(t, line, found);
    }

    /// A reference field is compared and swapped, or the task traps.
    pub(crate) fn compare_and_swap(
        &mut self,
        t: u32,
        line: u32,
        target: IntReg,
        object: RefReg,
        index: IntReg,
        expected: RefReg,
        value: RefReg,
    )
        requires made { t < length self.old.tasks }
        requires next { IfSome (slice_get self.old.tasks t) (λ x. x.top.next + 1 < 2 ^ 32) }
        ensures { IfSome (slice_get self.old.tasks t) (λ x. self.new ≡ follow self.old t x line (effect (setting self.old t x) x.top self.old.store (Instr.Cas target object index expected value))) }
    {
        let found = self.reference_place(t, object, index);
        self.swap_found(t, line, target, found, expected, value);
    }

    /// A register names a new mutable object with the counts of fields that two registers hold, or the task traps.
    pub(crate) fn make_object(
        &mut self,
        alloc: Global,
        t: u32,
        line: u32,
        target: RefReg,
        refs: IntReg,
        ints: IntReg,
    ) -> Result<(), AllocError>
        requires made { t < length self.old.tasks }
        requires rows { length self.old.store ≡ length self.old.tasks }
        requires count { length (row_of (slice_get self.old.store t)) < 2 ^ 32 }
        requires next { IfSome (slice_get self.old.tasks t) (λ x. x.top.next + 1 < 2 ^ 32) }
        ensures ok { OnOk result (IfSome (slice_get self.old.tasks t) (λ x. self.new ≡ follow self.old t x line (effect (setting self.old t x) x.top self.old.store (Instr.Newm target refs ints)))) }
        ensures err { OnErr result (self.new ≡ self.old) }
    {
        let found = self.new_counts(t, refs, ints);
        self.make_found(alloc, t, line, target, found)
    }
}
