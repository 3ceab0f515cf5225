// Changes of the store: each function allocates all its memory before its first change.

ghost use Rattle.std.specs.Prelude.{◌≡◌, ◌<◌, ◌+◌, ◌^◌, ◌++◌, ◌∷◌, [], length, slice_get, slice_set, IfSome, IsSomeAnd, IsSome, OnOk, OnErr, IfOk, replicate, take, pos, None, false, true};
ghost use Rattle.hh_model.specs.Effect.{effect, int_in, object_at, put_object, ref_in, row_of, made, onward, with_int};
ghost use Rattle.hh_model.specs.Step.{follow, setting, strand_of};

use crate::data::{Frame, MachineState, Name, Object};
use hh_lang::{FieldCount, Instr, IntReg, Listed, RefReg};
use std::alloc::{AllocError, Global};

impl MachineState {
    /// Writes a reference field of an object.
    #[inline(always)]
    fn set_field(&mut self, name: Name, at: usize, value: Option<Name>)
        requires { IsSomeAnd (object_at self.old.store name) (λ x. at < length x.refs) }
        ensures { IfSome (object_at self.old.store name) (λ x. self.new ≡ record self.old { store = put_object self.old.store name (record x { refs = slice_set x.refs at value }) }) }
    {
        let row = self.store.at_mut(name.task as usize);
        let object = row.at_mut(name.count as usize);
        object.refs.set(at, value);
    }

    /// A task writes what a register holds into a reference field of an object.
    #[inline(always)]
    pub(crate) fn write_reference(&mut self, t: u32, name: Name, at: usize, value: RefReg)
        requires made { t < length self.old.tasks }
        requires next { IfSome (slice_get self.old.tasks t) (λ x. x.top.next + 1 < 2 ^ 32) }
        requires field { IsSomeAnd (object_at self.old.store name) (λ o. at < length o.refs) }
        ensures { IfSome (slice_get self.old.tasks t) (λ x. IfSome (object_at self.old.store name) (λ o. self.new ≡ record self.old { tasks = slice_set self.old.tasks t (record x { top = onward x.top }); store = put_object self.old.store name (record o { refs = slice_set o.refs at (ref_in x.top value) }) })) }
    {
        let value = self.tasks.at(t as usize).top.reference(value);
        self.set_field(name, at, value);
        self.advance(t);
    }

    /// A task writes what a register holds into a reference field of an object, and 1 into a number register.
    pub(crate) fn swap(&mut self, t: u32, target: IntReg, name: Name, at: usize, value: RefReg)
        requires made { t < length self.old.tasks }
        requires next { IfSome (slice_get self.old.tasks t) (λ x. x.top.next + 1 < 2 ^ 32) }
        requires field { IsSomeAnd (object_at self.old.store name) (λ o. at < length o.refs) }
        ensures { IfSome (slice_get self.old.tasks t) (λ x. IfSome (object_at self.old.store name) (λ o. self.new ≡ record self.old { tasks = slice_set self.old.tasks t (record x { top = onward (with_int x.top target (pos 1)) }); store = put_object self.old.store name (record o { refs = slice_set o.refs at (ref_in x.top value) }) })) }
    {
        let value = self.tasks.at(t as usize).top.reference(value);
        self.set_field(name, at, value);
        self.set_int(t, target, 1);
    }

    /// A task writes what a register holds into a number field of an object.
    #[inline(always)]
    pub(crate) fn write_int(&mut self, t: u32, name: Name, at: usize, value: IntReg)
        requires made { t < length self.old.tasks }
        requires next { IfSome (slice_get self.old.tasks t) (λ x. x.top.next + 1 < 2 ^ 32) }
        requires field { IsSomeAnd (object_at self.old.store name) (λ o. at < length o.ints) }
        ensures { IfSome (slice_get self.old.tasks t) (λ x. IfSome (object_at self.old.store name) (λ o. self.new ≡ record self.old { tasks = slice_set self.old.tasks t (record x { top = onward x.top }); store = put_object self.old.store name (record o { ints = slice_set o.ints at (int_in x.top value) }) })) }
    {
        let value = self.tasks.at(t as usize).top.int(value);
        let row = self.store.at_mut(name.task as usize);
        let object = row.at_mut(name.count as usize);
        object.ints.set(at, value);
        self.advance(t);
    }

    /// A task makes an object immutable.
    pub(crate) fn freeze(&mut self, t: u32, name: Name)
        requires made { t < length self.old.tasks }
        requires next { IfSome (slice_get self.old.tasks t) (λ x. x.top.next + 1 < 2 ^ 32) }
        requires there { IsSome (object_at self.old.store name) }
        ensures { IfSome (slice_get self.old.tasks t) (λ x. IfSome (object_at self.old.store name) (λ o. self.new ≡ record self.old { tasks = slice_set self.old.tasks t (record x { top = onward x.top }); store = put_object self.old.store name (record o { mutable = false }) })) }
    {
        let row = self.store.at_mut(name.task as usize);
        let object = row.at_mut(name.count as usize);
        object.mutable = false;
        self.advance(t);
    }

    /// Adds an object at the end of a task's row.
    #[tactic(auto, using(crate::proofs::Lists::set_got))]
    fn add_object(&mut self, t: u32, object: Object) -> Result<(), AllocError>
        requires { t < length self.old.store }
        ensures ok { OnOk result (self.new ≡ record self.old { store = slice_set self.old.store t (row_of (slice_get self.old.store t) ++ object ∷ []) }) }
        ensures err { OnErr result (self.new ≡ self.old) }
    {
        self.store.at_mut(t as usize).push(object)
    }

    /// A register of the running task names a new object, the last of its row.
    fn make(&mut self, t: u32, target: RefReg, object: Object) -> Result<(), AllocError>
        requires made { t < length self.old.tasks }
        requires rows { length self.old.store ≡ length self.old.tasks }
        requires count { length (row_of (slice_get self.old.store t)) < 2 ^ 32 }
        requires next { IfSome (slice_get self.old.tasks t) (λ x. x.top.next + 1 < 2 ^ 32) }
        ensures ok { OnOk result (IfSome (slice_get self.old.tasks t) (λ x. self.new ≡ follow self.old t x 0 (made (setting self.old t x) x.top self.old.store target object))) }
        ensures err { OnErr result (self.new ≡ self.old) }
    {
        let name = Name {
            task: t,
            count: self.store.at(t as usize).len() as u32,
        };
        self.add_object(t, object)?;
        self.set_reference(t, target, Some(name));
        Ok(())
    }

    /// A register of a task names a new mutable object of nil references and zeros.
    pub(crate) fn make_mutable(
        &mut self,
        alloc: Global,
        t: u32,
        target: RefReg,
        refs: usize,
        ints: usize,
    ) -> Result<(), AllocError>
        requires made { t < length self.old.tasks }
        requires rows { length self.old.store ≡ length self.old.tasks }
        requires count { length (row_of (slice_get self.old.store t)) < 2 ^ 32 }
        requires next { IfSome (slice_get self.old.tasks t) (λ x. x.top.next + 1 < 2 ^ 32) }
        ensures ok { OnOk result (IfSome (slice_get self.old.tasks t) (λ x. self.new ≡ follow self.old t x 0 (made (setting self.old t x) x.top self.old.store target (record { strand = strand_of t x; mutable = true; refs = replicate refs None; ints = replicate ints (pos 0) })))) }
        ensures err { OnErr result (self.new ≡ self.old) }
    {
        let object = Object {
            strand: self.strand(t),
            mutable: true,
            refs: nils(alloc, refs)?,
            ints: zeros(alloc, ints)?,
        };
        self.make(t, target, object)
    }

    /// A register of a task names a new immutable object of its first registers.
    pub(crate) fn make_immutable(
        &mut self,
        alloc: Global,
        t: u32,
        target: RefReg,
        refs: FieldCount,
        ints: FieldCount,
    ) -> Result<(), AllocError>
        requires made { t < length self.old.tasks }
        requires rows { length self.old.store ≡ length self.old.tasks }
        requires count { length (row_of (slice_get self.old.store t)) < 2 ^ 32 }
        requires next { IfSome (slice_get self.old.tasks t) (λ x. x.top.next + 1 < 2 ^ 32) }
        ensures ok { OnOk result (IfSome (slice_get self.old.tasks t) (λ x. self.new ≡ follow self.old t x 0 (effect (setting self.old t x) x.top self.old.store (Instr.Pack target refs ints)))) }
        ensures err { OnErr result (self.new ≡ self.old) }
    {
        let top = &self.tasks.at(t as usize).top;
        let object = Object {
            strand: self.strand(t),
            mutable: false,
            refs: first_references(alloc, top, refs)?,
            ints: first_ints(alloc, top, ints)?,
        };
        self.make(t, target, object)
    }
}

/// A list of `count` nil references.
fn nils(alloc: Global, count: usize) -> Result<Listed<Option<Name>>, AllocError>
    ensures { IfOk result (λ fields. fields ≡ replicate count None) }
{
    Ok(Listed::from_vec(vec![in alloc; None; count]?))
}

/// A list of `count` zeros.
fn zeros(alloc: Global, count: usize) -> Result<Listed<i64>, AllocError>
    ensures { IfOk result (λ fields. fields ≡ replicate count (pos 0)) }
{
    Ok(Listed::from_vec(vec![in alloc; 0; count]?))
}

/// What the first reference registers hold.
fn first_references(
    alloc: Global,
    frame: &Frame,
    count: FieldCount,
) -> Result<Listed<Option<Name>>, AllocError>
    ensures { IfOk result (λ fields. fields ≡ take count frame.now.refs) }
{
    Ok(Listed::from_vec(frame.refs[..count.count()].to_vec(alloc)?))
}

/// What the first number registers hold.
fn first_ints(alloc: Global, frame: &Frame, count: FieldCount) -> Result<Listed<i64>, AllocError>
    ensures { IfOk result (λ fields. fields ≡ take count frame.now.ints) }
{
    Ok(Listed::from_vec(frame.ints[..count.count()].to_vec(alloc)?))
}
