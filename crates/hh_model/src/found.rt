// What a task's registers name, looked up before anything changes.

ghost use Rattle.std.specs.Prelude.{◌≡◌, ◌<◌, ℕ, length, pos, false, true, replicate, slice_get, slice_set, IfOk, IfSome, IsSome, IsSomeAnd, None};
ghost use Rattle.hh_model.specs.Effect.{effect, int_in, made, object_at, onward, or_trap, put_object, read_effect, ref_in, swap_effect, with_int, Goes};
ghost use Rattle.hh_model.specs.Found.{or_trapped};
ghost use Rattle.hh_model.specs.Step.{setting, strand_of};
ghost use Rattle.hh_model.specs.declared.data.Trap.TheVariants.{Nil};

use crate::arithmetic::{field_counts, field_index};
use crate::data::{MachineState, Name, Trap};
use hh_lang::{Instr, IntReg, RefReg};

impl MachineState {
    /// What a number field holds, or why there is none.
    #[inline(always)]
    pub(crate) fn int_field(&self, t: u32, object: RefReg, index: IntReg) -> Result<i64, Trap>
        requires { t < length self.now.tasks }
        ensures { (d : ℕ) → IfSome (slice_get self.now.tasks t) (λ x. effect (setting self.now t x) x.top self.now.store (Instr.Geti d object index) ≡ or_trapped result (λ v. Goes (onward (with_int x.top d v)) self.now.store)) }
    {
        let top = &self.tasks.at(t as usize).top;
        let Some(name) = top.reference(object) else {
            return Err(Trap::Nil);
        };
        let Some(object) = self.object(name) else {
            return Err(Trap::Nil);
        };
        match field_index(object.ints.len(), top.int(index)) {
            Some(at) => Ok(*object.ints.at(at)),
            None => Err(Trap::Range),
        }
    }

    /// What a reference field holds, or why there is none.
    #[inline(always)]
    pub(crate) fn reference_field(
        &self,
        t: u32,
        object: RefReg,
        index: IntReg,
    ) -> Result<Option<Name>, Trap>
        requires { t < length self.now.tasks }
        ensures { (d : ℕ) → IfSome (slice_get self.now.tasks t) (λ x. effect (setting self.now t x) x.top self.now.store (Instr.Getr d object index) ≡ or_trapped result (read_effect (setting self.now t x) x.top self.now.store d)) }
    {
        let top = &self.tasks.at(t as usize).top;
        let Some(name) = top.reference(object) else {
            return Err(Trap::Nil);
        };
        let Some(object) = self.object(name) else {
            return Err(Trap::Nil);
        };
        match field_index(object.refs.len(), top.int(index)) {
            Some(at) => Ok(*object.refs.at(at)),
            None => Err(Trap::Range),
        }
    }

    /// The object and the position of a number field that may be written, or why there is none.
    #[inline(always)]
    pub(crate) fn int_place(
        &self,
        t: u32,
        object: RefReg,
        index: IntReg,
    ) -> Result<(Name, usize), Trap>
        requires { t < length self.now.tasks }
        ensures put { (v : ℕ) → IfSome (slice_get self.now.tasks t) (λ x. effect (setting self.now t x) x.top self.now.store (Instr.Puti object index v) ≡ or_trapped result (λ p. or_trap Nil (object_at self.now.store p.0) (λ o. Goes (onward x.top) (put_object self.now.store p.0 (record o { ints = slice_set o.ints p.1 (int_in x.top v) }))))) }
        ensures there { IfOk result (λ p. IsSomeAnd (object_at self.now.store p.0) (λ o. p.1 < length o.ints)) }
    {
        let top = &self.tasks.at(t as usize).top;
        let Some(name) = top.reference(object) else {
            return Err(Trap::Nil);
        };
        let Some(object) = self.object(name) else {
            return Err(Trap::Nil);
        };
        let Some(at) = field_index(object.ints.len(), top.int(index)) else {
            return Err(Trap::Range);
        };
        if object.mutable {
            Ok((name, at))
        } else {
            Err(Trap::Frozen)
        }
    }

    /// The object and the position of a reference field that may be written, or why there is none.
    #[inline(always)]
    pub(crate) fn reference_place(
        &self,
        t: u32,
        object: RefReg,
        index: IntReg,
    ) -> Result<(Name, usize), Trap>
        requires { t < length self.now.tasks }
        ensures put { (v : ℕ) → IfSome (slice_get self.now.tasks t) (λ x. effect (setting self.now t x) x.top self.now.store (Instr.Putr object index v) ≡ or_trapped result (λ p. or_trap Nil (object_at self.now.store p.0) (λ o. Goes (onward x.top) (put_object self.now.store p.0 (record o { refs = slice_set o.refs p.1 (ref_in x.top v) }))))) }
        ensures swap { (d e v : ℕ) → IfSome (slice_get self.now.tasks t) (λ x. effect (setting self.now t x) x.top self.now.store (Instr.Cas d object index e v) ≡ or_trapped result (λ p. or_trap Nil (object_at self.now.store p.0) (swap_effect x.top self.now.store d e v p.0 p.1))) }
        ensures there { IfOk result (λ p. IsSomeAnd (object_at self.now.store p.0) (λ o. p.1 < length o.refs)) }
    {
        let top = &self.tasks.at(t as usize).top;
        let Some(name) = top.reference(object) else {
            return Err(Trap::Nil);
        };
        let Some(object) = self.object(name) else {
            return Err(Trap::Nil);
        };
        let Some(at) = field_index(object.refs.len(), top.int(index)) else {
            return Err(Trap::Range);
        };
        if object.mutable {
            Ok((name, at))
        } else {
            Err(Trap::Frozen)
        }
    }

    /// How many number fields an object has, or why there is no object.
    pub(crate) fn int_count(&self, t: u32, object: RefReg) -> Result<i64, Trap>
        requires { t < length self.now.tasks }
        ensures { (d : ℕ) → IfSome (slice_get self.now.tasks t) (λ x. effect (setting self.now t x) x.top self.now.store (Instr.Cnti d object) ≡ or_trapped result (λ v. Goes (onward (with_int x.top d v)) self.now.store)) }
    {
        let top = &self.tasks.at(t as usize).top;
        let Some(name) = top.reference(object) else {
            return Err(Trap::Nil);
        };
        match self.object(name) {
            Some(object) => Ok(object.ints.as_slice().len() as i64),
            None => Err(Trap::Nil),
        }
    }

    /// How many reference fields an object has, or why there is no object.
    pub(crate) fn reference_count(&self, t: u32, object: RefReg) -> Result<i64, Trap>
        requires { t < length self.now.tasks }
        ensures { (d : ℕ) → IfSome (slice_get self.now.tasks t) (λ x. effect (setting self.now t x) x.top self.now.store (Instr.Cntr d object) ≡ or_trapped result (λ v. Goes (onward (with_int x.top d v)) self.now.store)) }
    {
        let top = &self.tasks.at(t as usize).top;
        let Some(name) = top.reference(object) else {
            return Err(Trap::Nil);
        };
        match self.object(name) {
            Some(object) => Ok(object.refs.as_slice().len() as i64),
            None => Err(Trap::Nil),
        }
    }

    /// The object that a task may freeze, or why it may not.
    pub(crate) fn own_object(&self, t: u32, object: RefReg) -> Result<Name, Trap>
        requires { t < length self.now.tasks }
        ensures freeze { IfSome (slice_get self.now.tasks t) (λ x. effect (setting self.now t x) x.top self.now.store (Instr.Freeze object) ≡ or_trapped result (λ n. or_trap Nil (object_at self.now.store n) (λ o. Goes (onward x.top) (put_object self.now.store n (record o { mutable = false }))))) }
        ensures there { IfOk result (λ n. IsSome (object_at self.now.store n)) }
    {
        let top = &self.tasks.at(t as usize).top;
        let Some(name) = top.reference(object) else {
            return Err(Trap::Nil);
        };
        if self.object(name).is_none() {
            return Err(Trap::Nil);
        }
        if self.owner(name.task) == t {
            Ok(name)
        } else {
            Err(Trap::Frozen)
        }
    }
    /// How many fields of each kind a new object gets, or why it isn't allocated.
    #[inline(always)]
    pub(crate) fn new_counts(
        &self,
        t: u32,
        refs: IntReg,
        ints: IntReg,
    ) -> Result<(usize, usize), Trap>
        requires { t < length self.now.tasks }
        ensures { (d : ℕ) → IfSome (slice_get self.now.tasks t) (λ x. effect (setting self.now t x) x.top self.now.store (Instr.Newm d refs ints) ≡ or_trapped result (λ n. made (setting self.now t x) x.top self.now.store d (record { strand = strand_of t x; mutable = true; refs = replicate n.0 None; ints = replicate n.1 (pos 0) }))) }
    {
        let top = &self.tasks.at(t as usize).top;
        match field_counts(self.field_limit, top.int(refs), top.int(ints)) {
            Some(counts) => Ok(counts),
            None => Err(Trap::Size),
        }
    }
}
