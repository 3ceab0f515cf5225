// What a step changes, once the objects of its registers are known.

ghost use Rattle.std.specs.Prelude.{◌≡◌, ◌<◌, ◌+◌, ◌^◌, ℕ, length, pos, true, false, replicate, slice_get, slice_set, IfOk, IfSome, IsSome, IsSomeAnd, None, OnOk, OnErr};
ghost use Rattle.hh_model.specs.Effect.{int_in, made, object_at, onward, or_trap, put_object, read_effect, ref_in, row_of, swap_effect, with_int, Goes};
ghost use Rattle.hh_model.specs.Found.{or_trapped};
ghost use Rattle.hh_model.specs.PathLaw.{PathIsPrecedenceIn};
ghost use Rattle.hh_model.specs.Step.{ended_by, follow, is_running, setting, strand_of};
ghost use Rattle.hh_model.specs.declared.data.Trap.TheVariants.{Nil};

use crate::arithmetic::is_same;
use crate::data::{End, MachineState, Name, Trap};
use hh_lang::{IntReg, RefReg};
use std::alloc::{AllocError, Global};

impl MachineState {
    /// A number register gets what was found, or the task traps.
    #[inline(always)]
    pub(crate) fn set_found(&mut self, t: u32, line: u32, target: IntReg, found: Result<i64, Trap>)
        requires made { t < length self.old.tasks }
        requires next { IfSome (slice_get self.old.tasks t) (λ x. x.top.next + 1 < 2 ^ 32) }
        ensures { IfSome (slice_get self.old.tasks t) (λ x. self.new ≡ follow self.old t x line (or_trapped found (λ v. Goes (onward (with_int x.top target v)) self.old.store))) }
    {
        match found {
            Ok(value) => self.set_int(t, target, value),
            Err(trap) => self.finish(End::Trapped(trap, t, line)),
        }
    }

    /// A reference register gets what a field holds. A running task is stopped if and only if the owner of what it
    /// would read isn't on its path, which is the same as happens before.
    #[inline(always)]
    fn set_read(&mut self, t: u32, line: u32, target: RefReg, read: Option<Name>)
        requires made { t < length self.old.tasks }
        requires running { is_running (slice_get self.old.tasks t) ≡ true }
        requires path { PathIsPrecedenceIn self.old }
        requires next { IfSome (slice_get self.old.tasks t) (λ x. x.top.next + 1 < 2 ^ 32) }
        ensures { IfSome (slice_get self.old.tasks t) (λ x. self.new ≡ follow self.old t x line (read_effect (setting self.old t x) x.top self.old.store target read)) }
    {
        let Some(name) = read else {
            self.set_reference(t, target, None);
            return;
        };
        if self.object(name).is_none() {
            self.finish(End::Trapped(Trap::Nil, t, line));
            return;
        }
        let owner = self.owner(name.task);
        if self.is_on_path(owner, t) {
            self.set_reference(t, target, Some(name));
        } else {
            self.finish(End::Entangled(t, owner));
        }
    }

    /// A reference register gets what was read, or the task traps or is stopped.
    #[inline(always)]
    pub(crate) fn read_found(
        &mut self,
        t: u32,
        line: u32,
        target: RefReg,
        found: Result<Option<Name>, Trap>,
    )
        requires made { t < length self.old.tasks }
        requires running { is_running (slice_get self.old.tasks t) ≡ true }
        requires path { PathIsPrecedenceIn self.old }
        requires next { IfSome (slice_get self.old.tasks t) (λ x. x.top.next + 1 < 2 ^ 32) }
        ensures { IfSome (slice_get self.old.tasks t) (λ x. self.new ≡ follow self.old t x line (or_trapped found (read_effect (setting self.old t x) x.top self.old.store target))) }
    {
        match found {
            Ok(read) => self.set_read(t, line, target, read),
            Err(trap) => self.finish(End::Trapped(trap, t, line)),
        }
    }

    /// A number field gets what a register holds, or the task traps.
    #[inline(always)]
    pub(crate) fn put_int_found(
        &mut self,
        t: u32,
        line: u32,
        found: Result<(Name, usize), Trap>,
        value: IntReg,
    )
        requires made { t < length self.old.tasks }
        requires next { IfSome (slice_get self.old.tasks t) (λ x. x.top.next + 1 < 2 ^ 32) }
        requires there { IfOk found (λ p. IsSomeAnd (object_at self.old.store p.0) (λ o. p.1 < length o.ints)) }
        ensures { IfSome (slice_get self.old.tasks t) (λ x. self.new ≡ follow self.old t x line (or_trapped found (λ p. or_trap Nil (object_at self.old.store p.0) (λ o. Goes (onward x.top) (put_object self.old.store p.0 (record o { ints = slice_set o.ints p.1 (int_in x.top value) })))))) }
    {
        match found {
            Ok((name, at)) => self.write_int(t, name, at, value),
            Err(trap) => self.finish(End::Trapped(trap, t, line)),
        }
    }

    /// A reference field gets what a register holds, or the task traps.
    #[inline(always)]
    pub(crate) fn put_reference_found(
        &mut self,
        t: u32,
        line: u32,
        found: Result<(Name, usize), Trap>,
        value: RefReg,
    )
        requires made { t < length self.old.tasks }
        requires next { IfSome (slice_get self.old.tasks t) (λ x. x.top.next + 1 < 2 ^ 32) }
        requires there { IfOk found (λ p. IsSomeAnd (object_at self.old.store p.0) (λ o. p.1 < length o.refs)) }
        ensures { IfSome (slice_get self.old.tasks t) (λ x. self.new ≡ follow self.old t x line (or_trapped found (λ p. or_trap Nil (object_at self.old.store p.0) (λ o. Goes (onward x.top) (put_object self.old.store p.0 (record o { refs = slice_set o.refs p.1 (ref_in x.top value) })))))) }
    {
        match found {
            Ok((name, at)) => self.write_reference(t, name, at, value),
            Err(trap) => self.finish(End::Trapped(trap, t, line)),
        }
    }

    /// A compare and swap at a field of a mutable object.
    fn swap_at(
        &mut self,
        t: u32,
        target: IntReg,
        name: Name,
        at: usize,
        expected: RefReg,
        value: RefReg,
    )
        requires made { t < length self.old.tasks }
        requires next { IfSome (slice_get self.old.tasks t) (λ x. x.top.next + 1 < 2 ^ 32) }
        requires there { IsSomeAnd (object_at self.old.store name) (λ o. at < length o.refs) }
        ensures { (line : ℕ) → IfSome (slice_get self.old.tasks t) (λ x. self.new ≡ follow self.old t x line (or_trap Nil (object_at self.old.store name) (swap_effect x.top self.old.store target expected value name at))) }
    {
        let top = &self.tasks.at(t as usize).top;
        let object = self.store.at(name.task as usize).at(name.count as usize);
        if is_same(*object.refs.at(at), top.reference(expected)) {
            self.swap(t, target, name, at, value);
        } else {
            self.set_int(t, target, 0);
        }
    }

    /// A compare and swap at the field that was found, or the task traps.
    pub(crate) fn swap_found(
        &mut self,
        t: u32,
        line: u32,
        target: IntReg,
        found: Result<(Name, usize), Trap>,
        expected: RefReg,
        value: RefReg,
    )
        requires made { t < length self.old.tasks }
        requires next { IfSome (slice_get self.old.tasks t) (λ x. x.top.next + 1 < 2 ^ 32) }
        requires there { IfOk found (λ p. IsSomeAnd (object_at self.old.store p.0) (λ o. p.1 < length o.refs)) }
        ensures { IfSome (slice_get self.old.tasks t) (λ x. self.new ≡ follow self.old t x line (or_trapped found (λ p. or_trap Nil (object_at self.old.store p.0) (swap_effect x.top self.old.store target expected value p.0 p.1)))) }
    {
        match found {
            Ok((name, at)) => self.swap_at(t, target, name, at, expected, value),
            Err(trap) => self.finish(End::Trapped(trap, t, line)),
        }
    }

    /// The object that was found becomes immutable, or the task traps.
    pub(crate) fn freeze_found(&mut self, t: u32, line: u32, found: Result<Name, Trap>)
        requires made { t < length self.old.tasks }
        requires next { IfSome (slice_get self.old.tasks t) (λ x. x.top.next + 1 < 2 ^ 32) }
        requires there { IfOk found (λ n. IsSome (object_at self.old.store n)) }
        ensures { IfSome (slice_get self.old.tasks t) (λ x. self.new ≡ follow self.old t x line (or_trapped found (λ n. or_trap Nil (object_at self.old.store n) (λ o. Goes (onward x.top) (put_object self.old.store n (record o { mutable = false })))))) }
    {
        match found {
            Ok(name) => self.freeze(t, name),
            Err(trap) => self.finish(End::Trapped(trap, t, line)),
        }
    }

    /// A register names a new mutable object with these counts of fields, or the task traps.
    #[inline(always)]
    pub(crate) fn make_found(
        &mut self,
        alloc: Global,
        t: u32,
        line: u32,
        target: RefReg,
        found: Result<(usize, usize), Trap>,
    ) -> Result<(), AllocError>
        requires made { t < length self.old.tasks }
        requires rows { length self.old.store ≡ length self.old.tasks }
        requires count { length (row_of (slice_get self.old.store t)) < 2 ^ 32 }
        requires next { IfSome (slice_get self.old.tasks t) (λ x. x.top.next + 1 < 2 ^ 32) }
        ensures ok { OnOk result (IfSome (slice_get self.old.tasks t) (λ x. self.new ≡ follow self.old t x line (or_trapped found (λ n. made (setting self.old t x) x.top self.old.store target (record { strand = strand_of t x; mutable = true; refs = replicate n.0 None; ints = replicate n.1 (pos 0) }))))) }
        ensures err { OnErr result (self.new ≡ self.old) }
    {
        match found {
            Ok((refs, ints)) => self.make_mutable(alloc, t, target, refs, ints),
            Err(trap) => {
                self.finish(End::Trapped(trap, t, line));
                Ok(())
            }
        }
    }

    /// Ends the machine.
    pub(crate) fn finish(&mut self, end: End)
        ensures { self.new ≡ ended_by self.old end }
    {
        self.end = Some(end);
    }
}
