// The delta of an entry.

ghost use Rattle.std.specs.Prelude.{◌≡◌, ◌<◌, ◌+◌, ◌^◌, [], length, OnOk, IfOk};
ghost use Rattle.run_trace.specs.declared.entry.Kind.TheVariants.{Took, Ran};
ghost use Rattle.run_deltas.specs.Steps.{unchanged};
ghost use Rattle.run_deltas.specs.Tasks.{now_free};
ghost use Rattle.run_deltas.specs.Deltas.{machine_after, delta};

use crate::data::{Changes, Delta, TaskNow};
use crate::steps::take_steps;
use crate::tasks::{add_children, add_free, add_moved, add_out};
use hh_lang::Program;
use hh_model::{Machine, MachineState};
use plain_vec::Listed;
use run_trace::Kind;
use std::alloc::{AllocError, Global};

// The delta of an entry that moves no task and takes no step.
fn nothing(alloc: Global) -> Delta
    ensures { result ≡ record { children = []; tasks = []; changes = unchanged } }
{
    Delta {
        children: Listed::new(alloc),
        tasks: Listed::new(alloc),
        changes: Changes::none(alloc),
    }
}

// The delta of an entry by which a worker takes a task.
fn took(alloc: Global, program: &Program, machine: &Machine, t: u32) -> Result<Delta, AllocError>
    requires { machine.now.program ≡ program.now }
    ensures { IfOk result (λ d. d ≡ delta program.now machine.now.state (Took t)) }
{
    let mut tasks = Listed::new(alloc);
    add_out(alloc, &mut tasks, program, machine.state(), t)?;
    Ok(Delta {
        children: Listed::new(alloc),
        tasks,
        changes: Changes::none(alloc),
    })
}

/// How many tasks there are.
pub fn tasks_made(machine: &Machine) -> Result<u32, AllocError>
    ensures value { IfOk result (λ made. made ≡ length machine.now.state.tasks) }
    ensures few { IfOk result (λ made. made + 1 < 2 ^ 32) }
{
    match u32::try_from(machine.state().tasks.len()) {
        Ok(made) if made < u32::MAX => Ok(made),
        _ => Err(AllocError),
    }
}

// Takes the steps of an entry, and says what they change.
fn ran(
    alloc: Global,
    program: &Program,
    machine: &mut Machine,
    t: u32,
    count: u32,
) -> Result<Delta, AllocError>
    requires { machine.old.program ≡ program.now }
    ensures program { machine.new.program ≡ machine.old.program }
    ensures state { OnOk result (machine.new.state ≡ machine_after program.now machine.old.state (Ran t count)) }
    ensures delta { IfOk result (λ d. d ≡ delta program.now machine.old.state (Ran t count)) }
{
    if t == u32::MAX {
        return Err(AllocError);
    }
    let made = tasks_made(machine)?;
    let changes = take_steps(alloc, program, machine, t, count)?;
    let mut children = Listed::new(alloc);
    add_children(&mut children, machine.state(), made)?;
    let mut tasks = Listed::new(alloc);
    add_moved(alloc, &mut tasks, program, machine.state(), made, t)?;
    Ok(Delta {
        children,
        tasks,
        changes,
    })
}

/// Takes the steps of an entry, if it has some, and says what the entry changes.
pub fn advance(
    alloc: Global,
    program: &Program,
    machine: &mut Machine,
    kind: Kind,
) -> Result<Delta, AllocError>
    requires { machine.old.program ≡ program.now }
    ensures program { machine.new.program ≡ machine.old.program }
    ensures state { OnOk result (machine.new.state ≡ machine_after program.now machine.old.state kind) }
    ensures delta { IfOk result (λ d. d ≡ delta program.now machine.old.state kind) }
{
    match kind {
        Kind::Took(t) => took(alloc, program, machine, t),
        Kind::Ran(t, count) => ran(alloc, program, machine, t, count),
        _ => Ok(nothing(alloc)),
    }
}

/// Where the first task stands before the first step.
pub fn start_tasks(
    alloc: Global,
    program: &Program,
    state: &MachineState,
) -> Result<Listed<TaskNow>, AllocError>
    ensures { IfOk result (λ tasks. tasks ≡ now_free program.now state.now 0) }
{
    let mut tasks = Listed::new(alloc);
    add_free(alloc, &mut tasks, program, state, 0)?;
    Ok(tasks)
}
