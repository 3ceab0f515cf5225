// Whether a task's next instruction is the task's own.

ghost use Rattle.std.specs.Prelude.{◌≡◌};
ghost use Rattle.run_ledger.specs.Steps.{is_frozen_above, is_open, is_read, owns, touched, works_alone};
ghost use Rattle.next_steps.specs.Own.{is_own_line};

use hh_lang::{Instr, Line};
use hh_model::{Frame, MachineState, Name, Task};

// The object that an instruction reads or writes.
fn touched(frame: &Frame, instr: Instr) -> Option<Name>
    ensures { result ≡ touched frame.now instr }
{
    match instr {
        Instr::Getr(_, object, _)
        | Instr::Geti(_, object, _)
        | Instr::Putr(object, _, _)
        | Instr::Puti(object, _, _)
        | Instr::Cntr(_, object)
        | Instr::Cnti(_, object)
        | Instr::Freeze(object)
        | Instr::Cas(_, object, _, _, _) => frame.reference(object),
        _ => None,
    }
}

// An output, a fork and the return that ends the task.
fn is_open(task: &Task, instr: Instr) -> bool
    ensures { result ≡ is_open task.now instr }
{
    match instr {
        Instr::Out(_) | Instr::Par(_, _) => true,
        Instr::Ret => task.below.is_empty(),
        _ => false,
    }
}

// Whether the task owns the object, or there is none.
fn owns(machine: &MachineState, task: u32, name: Option<Name>) -> bool
    ensures { result ≡ owns machine.now.tasks task name }
{
    match name {
        None => true,
        Some(name) => machine.owner(name.task) == task,
    }
}

// Whether an instruction reads a field of its object, or the number of fields, and writes nothing.
fn is_read(instr: Instr) -> bool
    ensures { result ≡ is_read instr }
{
    matches!(
        instr,
        Instr::Getr(_, _, _) | Instr::Geti(_, _, _) | Instr::Cntr(_, _) | Instr::Cnti(_, _)
    )
}

// Whether the task or an ancestor owns the object, and it is immutable.
fn is_frozen_above(machine: &MachineState, task: u32, name: Option<Name>) -> bool
    ensures { result ≡ is_frozen_above machine.now task name }
{
    let Some(name) = name else {
        return false;
    };
    machine.is_on_path(machine.owner(name.task), task)
        && match machine.object(name) {
            None => false,
            Some(object) => !object.mutable,
        }
}

// Whether an instruction works on the task's own object or on none, or reads an immutable object of an ancestor.
fn works_alone(machine: &MachineState, t: u32, frame: &Frame, line: &Line) -> bool
    ensures { result ≡ works_alone machine.now t frame.now line.now.instr }
{
    owns(machine, t, touched(frame, line.instr))
        || (is_read(line.instr) && is_frozen_above(machine, t, touched(frame, line.instr)))
}

/// Whether a task's next instruction is the task's own.
pub(crate) fn is_own_line(machine: &MachineState, t: u32, task: &Task, line: Option<Line>) -> bool
    ensures { result ≡ is_own_line machine.now t task.now line }
{
    match line {
        None => false,
        Some(line) => { !is_open(task, line.instr) && works_alone(machine, t, &task.top, &line) }
    }
}
