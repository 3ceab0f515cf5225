// Where the tasks stand that an entry moves, and what they hold.

ghost use Rattle.std.specs.Prelude.{◌≡◌, ◌<◌, ◌≤◌, ◌+◌, ◌-◌, ◌^◌, ◌++◌, IfOk, OnOk, true, false, length, slice_get, if◌then◌else◌};
ghost use Rattle.hh_model.specs.Step.{is_left};
ghost use Rattle.run_deltas.specs.Roots.{roots};
ghost use Rattle.run_deltas.specs.Tasks.{line_for, standing_for, now_of, now_out, now_free, joined_now, moved, child_of, children};

use crate::data::{NewTask, Standing, TaskNow};
use crate::roots::roots;
use hh_lang::Program;
use hh_model::{Frame, MachineState, Task, TaskStatus};
use plain_vec::Listed;
use run_names::line_number;
use std::alloc::{AllocError, Global};

// The line of a task by where it stands.
fn line_for(program: &Program, top: &Frame, status: TaskStatus) -> u32
    ensures { result ≡ line_for program.now top.now status }
{
    match status {
        TaskStatus::Running => line_number(program.line(top.function, top.next)),
        TaskStatus::Waiting => line_number(program.line(top.function, top.next.saturating_sub(1))),
        TaskStatus::Ended(_, _) => 0,
        TaskStatus::Joined => 0,
    }
}

fn standing_for(out: bool, status: TaskStatus) -> Standing
    ensures { result ≡ standing_for out status }
{
    match status {
        TaskStatus::Running => { if out { Standing::Out } else { Standing::Ready } }
        TaskStatus::Waiting => Standing::Waits,
        TaskStatus::Ended(_, _) => Standing::HasEnded,
        TaskStatus::Joined => Standing::HasJoined,
    }
}

fn now_of(
    alloc: Global,
    program: &Program,
    t: u32,
    out: bool,
    task: &Task,
) -> Result<TaskNow, AllocError>
    ensures { IfOk result (λ now. now ≡ record { task = t; standing = standing_for out task.now.status; line = line_for program.now task.now.top task.now.status; holds = roots task.now }) }
{
    let holds = roots(alloc, task)?;
    Ok(TaskNow {
        task: t,
        standing: standing_for(out, task.status),
        line: line_for(program, &task.top, task.status),
        holds,
    })
}

// Adds where a task stands.
fn add_now(
    alloc: Global,
    tasks: &mut Listed<TaskNow>,
    program: &Program,
    state: &MachineState,
    t: u32,
    out: bool,
) -> Result<(), AllocError>
    ensures { OnOk result (tasks.new ≡ tasks.old ++ now_of program.now t out (slice_get state.now.tasks t)) }
{
    match state.tasks.get(t as usize) {
        None => Ok(()),
        Some(task) => {
            let now = now_of(alloc, program, t, out, task)?;
            tasks.push(now)
        }
    }
}

/// Adds where a task stands that is with a worker.
pub(crate) fn add_out(
    alloc: Global,
    tasks: &mut Listed<TaskNow>,
    program: &Program,
    state: &MachineState,
    t: u32,
) -> Result<(), AllocError>
    ensures { OnOk result (tasks.new ≡ tasks.old ++ now_out program.now state.now t) }
{
    add_now(alloc, tasks, program, state, t, true)
}

/// Adds where a task stands that is with none.
pub(crate) fn add_free(
    alloc: Global,
    tasks: &mut Listed<TaskNow>,
    program: &Program,
    state: &MachineState,
    t: u32,
) -> Result<(), AllocError>
    ensures { OnOk result (tasks.new ≡ tasks.old ++ now_free program.now state.now t) }
{
    add_now(alloc, tasks, program, state, t, false)
}

// Adds where a task that has forked and its children stand.
fn add_forked(
    alloc: Global,
    tasks: &mut Listed<TaskNow>,
    program: &Program,
    state: &MachineState,
    made: u32,
    t: u32,
) -> Result<(), AllocError>
    requires { made + 1 < 2 ^ 32 }
    ensures { OnOk result (tasks.new ≡ tasks.old ++ (now_free program.now state.now t ++ now_free program.now state.now made ++ now_free program.now state.now (made + 1))) }
{
    add_free(alloc, tasks, program, state, t)?;
    add_free(alloc, tasks, program, state, made)?;
    add_free(alloc, tasks, program, state, made + 1)
}

// Adds where children that have joined and their parent stand.
fn add_joined(
    alloc: Global,
    tasks: &mut Listed<TaskNow>,
    program: &Program,
    state: &MachineState,
    left: u32,
    parent: Option<u32>,
) -> Result<(), AllocError>
    requires { left + 1 < 2 ^ 32 }
    ensures { OnOk result (tasks.new ≡ tasks.old ++ joined_now program.now state.now left parent) }
{
    let Some(parent) = parent else {
        return Ok(());
    };
    add_free(alloc, tasks, program, state, parent)?;
    add_free(alloc, tasks, program, state, left)?;
    add_free(alloc, tasks, program, state, left + 1)
}

// The left one of a task and its sibling.
fn left_of(t: u32) -> u32
    ensures value { result ≡ (if is_left t then t else t - 1) }
    ensures below { result ≤ t }
{
    if t % 2 == 1 { t } else { t.saturating_sub(1) }
}

/// Adds where the tasks stand that steps of a task moved, in front of which so many were made.
pub(crate) fn add_moved(
    alloc: Global,
    tasks: &mut Listed<TaskNow>,
    program: &Program,
    state: &MachineState,
    made: u32,
    t: u32,
) -> Result<(), AllocError>
    requires few { made + 1 < 2 ^ 32 }
    requires task { t + 1 < 2 ^ 32 }
    ensures { OnOk result (tasks.new ≡ tasks.old ++ moved program.now state.now made t (slice_get state.now.tasks t)) }
{
    let Some(task) = state.tasks.get(t as usize) else {
        return Ok(());
    };
    match task.status {
        TaskStatus::Running => add_out(alloc, tasks, program, state, t),
        TaskStatus::Waiting => add_forked(alloc, tasks, program, state, made, t),
        TaskStatus::Ended(_, _) => add_free(alloc, tasks, program, state, t),
        TaskStatus::Joined => add_joined(alloc, tasks, program, state, left_of(t), task.parent),
    }
}

// Adds a task that was made.
fn add_child(list: &mut Listed<NewTask>, state: &MachineState, t: u32) -> Result<(), AllocError>
    ensures { OnOk result (list.new ≡ list.old ++ child_of t (slice_get state.now.tasks t)) }
{
    match state.tasks.get(t as usize) {
        None => Ok(()),
        Some(task) => list.push(NewTask {
            task: t,
            parent: task.parent.unwrap_or(0),
            function: task.top.function,
        }),
    }
}

/// Adds the tasks that were made, so many of which there were before.
pub(crate) fn add_children(
    list: &mut Listed<NewTask>,
    state: &MachineState,
    made: u32,
) -> Result<(), AllocError>
    requires { made + 1 < 2 ^ 32 }
    ensures { OnOk result (list.new ≡ list.old ++ children state.now made (length state.now.tasks)) }
{
    if state.tasks.len() == made as usize {
        return Ok(());
    }
    add_child(list, state, made)?;
    add_child(list, state, made + 1)
}
