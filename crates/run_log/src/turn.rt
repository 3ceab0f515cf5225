// What a step makes of tasks: forks, ends and joins.

ghost use Rattle.std.specs.Prelude.{◌≡◌, ◌<◌, ◌+◌, ◌-◌, ◌*◌, ◌^◌, ◌++◌, ◌∷◌, [], OnOk, IfOk, option_copied, slice_get};
ghost use Rattle.log_lines.specs.declared.line.Act.{Act};
ghost use Rattle.log_lines.specs.declared.line.LogLine.TheVariants as lines;
ghost use Rattle.run_log.specs.Writing.{written, all_written};
ghost use Rattle.run_log.specs.Lines.{strand_behind, left_of, join_lines, turn_lines, moved_lines};

use crate::write::add_line;
use hh_model::{MachineState, Task, TaskStatus};
use log_lines::{Act, LogLine};
use run_journal::joins_of;
use std::alloc::{AllocError, Global};

// Adds the line of an act.
pub(crate) fn add_act(alloc: Global, text: &mut Vec<u8>, act: Act) -> Result<(), AllocError>
    ensures { OnOk result (text.new.items ≡ text.old.items ++ written (lines.Act act)) }
{
    add_line(alloc, text, &LogLine::Act(act))
}

/// The number of a task's strand after so many joins.
pub(crate) fn strand_behind(joins: u32) -> Result<u32, AllocError>
    ensures { IfOk result (λ strand. strand ≡ strand_behind joins) }
{
    joins.checked_mul(4).ok_or(AllocError)
}

// The left one of a task and its sibling.
fn left_of(t: u32) -> u32
    ensures { result ≡ left_of t }
{
    if t % 2 == 1 { t } else { t.saturating_sub(1) }
}

// Adds the joins of a task's children, of which this is the left one.
fn add_joins(
    alloc: Global,
    text: &mut Vec<u8>,
    state: &MachineState,
    left: u32,
    parent: Option<u32>,
) -> Result<(), AllocError>
    ensures { OnOk result (text.new.items ≡ text.old.items ++ all_written (join_lines state.now left parent)) }
{
    let Some(parent) = parent else {
        return Ok(());
    };
    let Some(right) = left.checked_add(1) else {
        return Err(AllocError);
    };
    let behind = strand_behind(joins_of(state, parent))?;
    let strand = LogLine::Strand {
        task: parent,
        strand: behind.saturating_sub(2),
    };
    add_line(alloc, text, &strand)?;
    add_act(alloc, text, Act::Join(left))?;
    add_act(alloc, text, Act::Join(right))
}

// Adds the spawns of a fork, whose left child has this number.
fn add_spawns(alloc: Global, text: &mut Vec<u8>, left: u32) -> Result<(), AllocError>
    requires { left + 1 < 2 ^ 32 }
    ensures { OnOk result (text.new.items ≡ text.old.items ++ all_written (lines.Act (Act.Spawn left) ∷ lines.Act (Act.Spawn (left + 1)) ∷ [])) }
{
    add_act(alloc, text, Act::Spawn(left))?;
    add_act(alloc, text, Act::Spawn(left + 1))
}

// Adds what a step made of a task by where it stands.
fn add_turn(
    alloc: Global,
    text: &mut Vec<u8>,
    made: u32,
    state: &MachineState,
    t: u32,
    task: &Task,
) -> Result<(), AllocError>
    requires { made + 1 < 2 ^ 32 }
    ensures { OnOk result (text.new.items ≡ text.old.items ++ all_written (turn_lines made state.now t task.now.parent task.now.status)) }
{
    match task.status {
        TaskStatus::Running => Ok(()),
        TaskStatus::Waiting => add_spawns(alloc, text, made),
        TaskStatus::Ended(_, _) => add_act(alloc, text, Act::Finish),
        TaskStatus::Joined => {
            add_act(alloc, text, Act::Finish)?;
            add_joins(alloc, text, state, left_of(t), task.parent)
        }
    }
}

/// Adds what a step made of the task that took it, before which so many tasks were made.
pub(crate) fn add_moved(
    alloc: Global,
    text: &mut Vec<u8>,
    made: u32,
    state: &MachineState,
    t: u32,
) -> Result<(), AllocError>
    requires { made + 1 < 2 ^ 32 }
    ensures { OnOk result (text.new.items ≡ text.old.items ++ all_written (moved_lines made state.now t (slice_get state.now.tasks t))) }
{
    match state.tasks.get(t as usize) {
        None => Ok(()),
        Some(task) => add_turn(alloc, text, made, state, t, task),
    }
}
