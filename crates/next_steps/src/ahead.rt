// What is known of a task's next step before it is taken, from one look at its instruction.

ghost use Rattle.std.specs.Prelude.{◌≡◌, if◌then◌else◌, Some, None};
ghost use Rattle.hh_model.specs.Step.{asked, asked_by, asked_line, runs};
ghost use Rattle.next_steps.specs.Own.{is_own, is_own_by};

use crate::private::is_own_line;
use hh_lang::{Line, Program};
use hh_model::{MachineState, Task, TaskStatus};

/// What is known of a task's next step before it is taken.
#[derive(Clone, Copy)]
pub struct NextStep {
    /// The words that it allocates, if it allocates.
    pub words: Option<usize>,
    /// Whether it is no output, no fork and no end of the task, and reads or writes no object of another task, except
    /// that it may read an immutable object of an ancestor.
    pub own: bool,
}

// The words that a task's next instruction allocates, if the task runs and it allocates.
fn asked_at(machine: &MachineState, task: &Task, line: &Option<Line>) -> Option<usize>
    ensures { result ≡ (if runs task.now.status then asked_line machine.now.field_limit task.now.top line.now else None) }
{
    match task.status {
        TaskStatus::Running => {}
        _ => return None,
    }
    match line {
        None => None,
        Some(line) => task.top.asked(machine.field_limit, line.instr),
    }
}

// The next step of an existing task.
fn step_of(program: &Program, machine: &MachineState, t: u32, task: &Task) -> NextStep
    ensures words { result.words ≡ asked_by program.now machine.now (Some task.now) }
    ensures own { result.own ≡ is_own_by program.now machine.now t (Some task.now) }
{
    let line = program.line(task.top.function, task.top.next);
    NextStep {
        words: asked_at(machine, task, &line),
        own: is_own_line(machine, t, task, line),
    }
}

/// The next step of a task. A task that doesn't exist allocates nothing, and has no own step.
pub fn next_step(program: &Program, machine: &MachineState, t: u32) -> NextStep
    ensures words { result.words ≡ asked program.now machine.now t }
    ensures own { result.own ≡ is_own program.now machine.now t }
{
    match machine.tasks.get(t as usize) {
        Some(task) => step_of(program, machine, t, task),
        None => NextStep {
            words: None,
            own: false,
        },
    }
}
