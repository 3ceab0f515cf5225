// The access that the next step of a task makes.

ghost use Rattle.std.specs.Prelude.{◌≡◌, ◌<◌, ◌^◌, ℕ, pos, IfSome};
ghost use Rattle.run_journal.specs.below.hh_model.{StepContext, effect, place_in};
ghost use Rattle.race_report.specs.Accesses.{next_access, access_by, unless_trap};
ghost use Rattle.race_report.specs.Few.{FieldsAreIndexable};

use crate::data::{Field, FieldAccess};
use run_journal::{Frame, Instr, IntReg, MachineState, Program, RefReg, Strand, is_same};

// A number as an index, if it is below n.
fn field_index(count: usize, index: i64) -> Option<u32>
    requires { count < 2 ^ 32 }
    ensures place { result ≡ place_in count index }
    ensures value { IfSome result (λ at. index ≡ pos at) }
{
    if index < 0 {
        return None;
    }
    let at = index as usize;
    if at < count { Some(at as u32) } else { None }
}

// Where an instruction is: the strand that takes it, and its line.
#[derive(Clone, Copy)]
pub(crate) struct Place {
    pub(crate) strand: Strand,
    pub(crate) line: u32,
}

impl Place {
    fn access(self, field: Field, writes: bool, swaps: bool) -> FieldAccess
        ensures { result ≡ record { strand = self.strand; line = self.line; field = field; writes = writes; swaps = swaps } }
    {
        FieldAccess {
            strand: self.strand,
            line: self.line,
            field,
            writes,
            swaps,
        }
    }
}

fn getr_access(
    state: &MachineState,
    top: &Frame,
    at: Place,
    object: RefReg,
    index: IntReg,
) -> Option<FieldAccess>
    requires { FieldsAreIndexable state.now.store }
    ensures { (s : StepContext) (d : ℕ) → result ≡ unless_trap (effect s top.now state.now.store (Instr.Getr d object index)) (access_by at.strand at.line top.now state.now.store (Instr.Getr d object index)) }
{
    let name = top.reference(object)?;
    let object = state.object(name)?;
    let index = field_index(object.refs.len(), top.int(index))?;
    if let Some(read) = *object.refs.at(index as usize) {
        if state.object(read).is_none() {
            return None;
        }
    }
    let field = Field {
        name,
        is_number: false,
        index,
    };
    Some(at.access(field, false, false))
}

fn geti_access(
    state: &MachineState,
    top: &Frame,
    at: Place,
    object: RefReg,
    index: IntReg,
) -> Option<FieldAccess>
    requires { FieldsAreIndexable state.now.store }
    ensures { (s : StepContext) (d : ℕ) → result ≡ unless_trap (effect s top.now state.now.store (Instr.Geti d object index)) (access_by at.strand at.line top.now state.now.store (Instr.Geti d object index)) }
{
    let name = top.reference(object)?;
    let object = state.object(name)?;
    let index = field_index(object.ints.len(), top.int(index))?;
    let field = Field {
        name,
        is_number: true,
        index,
    };
    Some(at.access(field, false, false))
}

fn putr_access(
    state: &MachineState,
    top: &Frame,
    at: Place,
    object: RefReg,
    index: IntReg,
) -> Option<FieldAccess>
    requires { FieldsAreIndexable state.now.store }
    ensures { (s : StepContext) (v : ℕ) → result ≡ unless_trap (effect s top.now state.now.store (Instr.Putr object index v)) (access_by at.strand at.line top.now state.now.store (Instr.Putr object index v)) }
{
    let name = top.reference(object)?;
    let object = state.object(name)?;
    let index = field_index(object.refs.len(), top.int(index))?;
    if !object.mutable {
        return None;
    }
    let field = Field {
        name,
        is_number: false,
        index,
    };
    Some(at.access(field, true, false))
}

fn puti_access(
    state: &MachineState,
    top: &Frame,
    at: Place,
    object: RefReg,
    index: IntReg,
) -> Option<FieldAccess>
    requires { FieldsAreIndexable state.now.store }
    ensures { (s : StepContext) (v : ℕ) → result ≡ unless_trap (effect s top.now state.now.store (Instr.Puti object index v)) (access_by at.strand at.line top.now state.now.store (Instr.Puti object index v)) }
{
    let name = top.reference(object)?;
    let object = state.object(name)?;
    let index = field_index(object.ints.len(), top.int(index))?;
    if !object.mutable {
        return None;
    }
    let field = Field {
        name,
        is_number: true,
        index,
    };
    Some(at.access(field, true, false))
}

fn cas_access(
    state: &MachineState,
    top: &Frame,
    at: Place,
    object: RefReg,
    index: IntReg,
    expected: RefReg,
) -> Option<FieldAccess>
    requires { FieldsAreIndexable state.now.store }
    ensures { (s : StepContext) (d v : ℕ) → result ≡ unless_trap (effect s top.now state.now.store (Instr.Cas d object index expected v)) (access_by at.strand at.line top.now state.now.store (Instr.Cas d object index expected v)) }
{
    let name = top.reference(object)?;
    let object = state.object(name)?;
    let index = field_index(object.refs.len(), top.int(index))?;
    if !object.mutable {
        return None;
    }
    let writes = is_same(*object.refs.at(index as usize), top.reference(expected));
    let field = Field {
        name,
        is_number: false,
        index,
    };
    Some(at.access(field, writes, true))
}

// The access of an instruction, unless it traps.
fn instr_access(state: &MachineState, top: &Frame, at: Place, instr: Instr) -> Option<FieldAccess>
    requires { FieldsAreIndexable state.now.store }
    ensures { (s : StepContext) → result ≡ unless_trap (effect s top.now state.now.store instr) (access_by at.strand at.line top.now state.now.store instr) }
{
    match instr {
        Instr::Getr(_, object, index) => getr_access(state, top, at, object, index),
        Instr::Geti(_, object, index) => geti_access(state, top, at, object, index),
        Instr::Putr(object, index, _) => putr_access(state, top, at, object, index),
        Instr::Puti(object, index, _) => puti_access(state, top, at, object, index),
        Instr::Cas(_, object, index, expected, _) => cas_access(
            state, top, at, object, index, expected,
        ),
        _ => None,
    }
}

/// The access of a task's next step, if it can take one and makes one.
pub(crate) fn next_access(program: &Program, state: &MachineState, t: u32) -> Option<FieldAccess>
    requires { FieldsAreIndexable state.now.store }
    ensures { result ≡ next_access program.now state.now t }
{
    if !state.can_step(t) {
        return None;
    }
    let task = state.tasks.get(t as usize)?;
    let line = program.line(task.top.function, task.top.next)?;
    let strand = Strand {
        task: t,
        joins: task.joins,
    };
    let at = Place {
        strand,
        line: line.number,
    };
    instr_access(state, &task.top, at, line.instr)
}
