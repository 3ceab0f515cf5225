// What an instruction does to an object.

ghost use Rattle.std.specs.Prelude.{◌≡◌, ◌<◌, ℕ, length, IfOk};
ghost use Rattle.hh_model.specs.Names.{next_name};
ghost use Rattle.hh_model.specs.declared.data.Frame.{Frame};
ghost use Rattle.run_deltas.specs.Deeds.{number_place, deed, act_of, deed_of};

use crate::data::{Deed, StepAct, StepDeed, Value};
use hh_lang::{Instr, IntReg, Program, RefReg};
use hh_model::{Frame, MachineState, Name, Object, field_counts, field_index, is_same};
use std::alloc::AllocError;

// The name of the next object of a task.
fn next_name(state: &MachineState, task: u32) -> Result<Name, AllocError>
    ensures { IfOk result (λ name. name ≡ next_name task state.now.store) }
{
    let made = match state.store.get(task as usize) {
        None => 0,
        Some(row) => row.len(),
    };
    match u32::try_from(made) {
        Ok(count) => Ok(Name { task, count }),
        Err(_) => Err(AllocError),
    }
}

// The place of a number among all fields of an object.
fn number_place(object: &Object, at: usize) -> usize
    requires { at < length object.now.ints }
    ensures { result ≡ number_place object.now at }
{
    object.refs.as_slice().len() + at.min(object.ints.as_slice().len())
}

fn newm(
    state: &MachineState,
    t: u32,
    top: &Frame,
    refs: IntReg,
    ints: IntReg,
) -> Result<Option<Deed>, AllocError>
    ensures { (d : ℕ) → IfOk result (λ did. did ≡ deed state.now t top.now (Instr.Newm d refs ints)) }
{
    match field_counts(state.field_limit, top.int(refs), top.int(ints)) {
        None => Ok(None),
        Some(_) => {
            let name = next_name(state, t)?;
            Ok(Some(Deed::Allocates(name)))
        }
    }
}

fn pack(state: &MachineState, t: u32) -> Result<Option<Deed>, AllocError>
    ensures { (f : Frame) (d r i : ℕ) → IfOk result (λ did. did ≡ deed state.now t f (Instr.Pack d r i)) }
{
    let name = next_name(state, t)?;
    Ok(Some(Deed::Allocates(name)))
}

fn getr(state: &MachineState, top: &Frame, object: RefReg, index: IntReg) -> Option<Deed>
    ensures { (t d : ℕ) → result ≡ deed state.now t top.now (Instr.Getr d object index) }
{
    let name = top.reference(object)?;
    let object = state.object(name)?;
    let at = field_index(object.refs.len(), top.int(index))?;
    Some(Deed::Reads(name, at, Value::Reference(*object.refs.at(at))))
}

fn geti(state: &MachineState, top: &Frame, object: RefReg, index: IntReg) -> Option<Deed>
    ensures { (t d : ℕ) → result ≡ deed state.now t top.now (Instr.Geti d object index) }
{
    let name = top.reference(object)?;
    let object = state.object(name)?;
    let at = field_index(object.ints.len(), top.int(index))?;
    Some(Deed::Reads(
        name,
        number_place(object, at),
        Value::Number(*object.ints.at(at)),
    ))
}

fn putr(
    state: &MachineState,
    top: &Frame,
    object: RefReg,
    index: IntReg,
    value: RefReg,
) -> Option<Deed>
    ensures { (t : ℕ) → result ≡ deed state.now t top.now (Instr.Putr object index value) }
{
    let name = top.reference(object)?;
    let object = state.object(name)?;
    let at = field_index(object.refs.len(), top.int(index))?;
    if object.mutable {
        Some(Deed::Writes(name, at, Value::Reference(top.reference(value))))
    } else {
        None
    }
}

fn puti(
    state: &MachineState,
    top: &Frame,
    object: RefReg,
    index: IntReg,
    value: IntReg,
) -> Option<Deed>
    ensures { (t : ℕ) → result ≡ deed state.now t top.now (Instr.Puti object index value) }
{
    let name = top.reference(object)?;
    let object = state.object(name)?;
    let at = field_index(object.ints.len(), top.int(index))?;
    if object.mutable {
        Some(Deed::Writes(
            name,
            number_place(object, at),
            Value::Number(top.int(value)),
        ))
    } else {
        None
    }
}

fn cas(
    state: &MachineState,
    top: &Frame,
    object: RefReg,
    index: IntReg,
    expected: RefReg,
    value: RefReg,
) -> Option<Deed>
    ensures { (t d : ℕ) → result ≡ deed state.now t top.now (Instr.Cas d object index expected value) }
{
    let name = top.reference(object)?;
    let object = state.object(name)?;
    let at = field_index(object.refs.len(), top.int(index))?;
    let swapped = is_same(*object.refs.at(at), top.reference(expected));
    if object.mutable {
        Some(Deed::Swaps(name, at, top.reference(value), swapped))
    } else {
        None
    }
}

fn count(state: &MachineState, top: &Frame, object: RefReg) -> Option<Deed>
    ensures references { (t d : ℕ) → result ≡ deed state.now t top.now (Instr.Cntr d object) }
    ensures numbers { (t d : ℕ) → result ≡ deed state.now t top.now (Instr.Cnti d object) }
{
    let name = top.reference(object)?;
    let _object = state.object(name)?;
    Some(Deed::Counts(name))
}

fn freeze(state: &MachineState, t: u32, top: &Frame, object: RefReg) -> Option<Deed>
    ensures { result ≡ deed state.now t top.now (Instr.Freeze object) }
{
    let name = top.reference(object)?;
    let _object = state.object(name)?;
    if state.owner(name.task) == t {
        Some(Deed::Freezes(name))
    } else {
        None
    }
}

// What an instruction does.
fn deed(state: &MachineState, t: u32, top: &Frame, instr: Instr) -> Result<Option<Deed>, AllocError>
    ensures { IfOk result (λ did. did ≡ deed state.now t top.now instr) }
{
    match instr {
        Instr::Newm(_, refs, ints) => newm(state, t, top, refs, ints),
        Instr::Pack(_, _, _) => pack(state, t),
        Instr::Getr(_, object, index) => Ok(getr(state, top, object, index)),
        Instr::Geti(_, object, index) => Ok(geti(state, top, object, index)),
        Instr::Putr(object, index, value) => Ok(putr(state, top, object, index, value)),
        Instr::Puti(object, index, value) => Ok(puti(state, top, object, index, value)),
        Instr::Cas(_, object, index, expected, value) => Ok(cas(
            state, top, object, index, expected, value,
        )),
        Instr::Cntr(_, object) => Ok(count(state, top, object)),
        Instr::Cnti(_, object) => Ok(count(state, top, object)),
        Instr::Freeze(object) => Ok(freeze(state, t, top, object)),
        Instr::Out(value) => Ok(Some(Deed::Prints(top.int(value)))),
        _ => Ok(None),
    }
}

/// The next step of a task, where it can take one.
pub(crate) fn act_of(
    program: &Program,
    state: &MachineState,
    t: u32,
) -> Result<Option<StepAct>, AllocError>
    ensures { IfOk result (λ act. act ≡ act_of program.now state.now t) }
{
    if !state.can_step(t) {
        return Ok(None);
    }
    let Some(task) = state.tasks.get(t as usize) else {
        return Ok(None);
    };
    let Some(line) = program.line(task.top.function, task.top.next) else {
        return Ok(None);
    };
    let deed = deed(state, t, &task.top, line.instr)?;
    Ok(Some(StepAct {
        line: line.number,
        instr: line.instr,
        deed,
    }))
}

/// The next step of a task, where it can take one, without its instruction.
pub fn step_deed(
    program: &Program,
    state: &MachineState,
    t: u32,
) -> Result<Option<StepDeed>, AllocError>
    ensures { IfOk result (λ step. step ≡ deed_of (act_of program.now state.now t)) }
{
    if !state.can_step(t) {
        return Ok(None);
    }
    let Some(task) = state.tasks.get(t as usize) else {
        return Ok(None);
    };
    let Some(line) = program.line(task.top.function, task.top.next) else {
        return Ok(None);
    };
    let deed = deed(state, t, &task.top, line.instr)?;
    Ok(Some(StepDeed {
        line: line.number,
        deed,
    }))
}
