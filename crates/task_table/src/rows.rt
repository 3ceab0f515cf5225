// What an entry tells of tasks.

ghost use Rattle.std.specs.Prelude.{◌≡◌, ◌<◌, ◌+◌, ◌^◌, ◌++◌, OnOk, Some, length, option_copied, slice_get};
ghost use Rattle.task_table.specs.Rows.{half_begin, last_byte, loop_number, made_by, fork_of, fresh_row, first_set, entered, row_after, task_in, rows_after, children, rows_by};

use crate::row::{ForkOrigin, TaskRow};
use run_journal::{Entry, Frame, IntReg, Kind, Listed, MachineState, Program, Task};
use run_names::function_name;
use run_timeline::fork_line;
use saturating_counts::raised_by;
use std::alloc::AllocError;

// The last byte of a name.
fn last_byte(name: &[u8]) -> Option<u8>
    ensures { result ≡ last_byte name.now }
{
    name.get(name.len().saturating_sub(1)).copied()
}

// The number where half a parallel loop begins.
fn half_begin(mark: Option<u8>, first: i64, past: i64) -> Option<i64>
    ensures { result ≡ half_begin mark first past }
{
    match mark {
        Some(b'<') => Some(first),
        Some(b'>') => Some(first.wrapping_add(past.wrapping_sub(first) / 2)),
        _ => None,
    }
}

fn loop_number(program: &Program, frame: &Frame) -> Option<i64>
    ensures { result ≡ loop_number program.now frame.now }
{
    let mark = last_byte(function_name(program, frame.function));
    half_begin(mark, frame.int(IntReg::new(0)), frame.int(IntReg::new(1)))
}

// The fork at a line by which a task has just been made.
fn made_by(program: &Program, line: u32, task: Option<&Task>) -> Option<ForkOrigin>
    ensures { result ≡ made_by program.now line (option_copied task.entry) }
{
    match task {
        None => None,
        Some(task) => Some(ForkOrigin {
            line,
            function: task.top.function,
            number: loop_number(program, &task.top),
        }),
    }
}

// The fork by which a task has just been made.
fn fork_of(program: &Program, state: &MachineState, parent: u32, task: usize) -> Option<ForkOrigin>
    ensures { result ≡ fork_of program.now state.now parent task }
{
    let line = fork_line(program, state.tasks.get(parent as usize));
    made_by(program, line, state.tasks.get(task))
}

/// What is told of a task that no entry has told of.
pub(crate) fn fresh_row(fork: Option<ForkOrigin>) -> TaskRow
    ensures { result ≡ fresh_row fork }
{
    TaskRow {
        fork,
        worker: None,
        entries: 0,
        steps: 0,
        dropped: 0,
    }
}

fn first_set(first: Option<u32>, worker: u32) -> Option<u32>
    ensures { result ≡ first_set first worker }
{
    match first {
        None => Some(worker),
        Some(first) => Some(first),
    }
}

// With an entry more.
fn entered(row: TaskRow) -> TaskRow
    ensures { result ≡ entered row }
{
    let mut row = row;
    row.entries = raised_by(row.entries, 1);
    row
}

// With what an entry tells.
fn row_after(worker: u32, lost: u64, kind: Kind, row: TaskRow) -> TaskRow
    ensures { result ≡ row_after worker lost kind row }
{
    let mut more = entered(row);
    match kind {
        Kind::Took(_) => more.worker = first_set(row.worker, worker),
        Kind::Ran(_, steps) => more.steps = raised_by(row.steps, steps as u64),
        Kind::End(_, _, _, _) => more.dropped = raised_by(row.dropped, lost),
        Kind::Sweep(_, _) => more.dropped = raised_by(row.dropped, lost),
        _ => {}
    }
    more
}

// The task that an entry tells of.
fn task_in(kind: Kind) -> Option<u32>
    ensures { result ≡ task_in kind }
{
    match kind {
        Kind::Took(task) => Some(task),
        Kind::Ran(task, _) => Some(task),
        Kind::Chunk(task) => Some(task),
        Kind::Begin(task) => Some(task),
        Kind::End(task, _, _, _) => Some(task),
        Kind::PutOff(task) => Some(task),
        Kind::Mark(task) => Some(task),
        Kind::More(task, _) => Some(task),
        Kind::Sweep(task, _) => Some(task),
        Kind::Fuel => None,
    }
}

// The row of a task.
fn row_at(rows: &Listed<TaskRow>, task: usize) -> Option<TaskRow>
    ensures { result ≡ slice_get rows.now task }
{
    rows.get(task).copied()
}

// Tells of a task.
fn tell(rows: &mut Listed<TaskRow>, worker: u32, lost: u64, kind: Kind, task: u32)
    ensures { rows.new ≡ rows_after rows.old worker lost kind (Some task) }
{
    match row_at(rows, task as usize) {
        None => {}
        Some(row) => rows.set(task as usize, row_after(worker, lost, kind, row)),
    }
}

// Adds the rows of the children that a task has just forked.
fn add_children(
    program: &Program,
    state: &MachineState,
    made: u64,
    task: u32,
    rows: &mut Listed<TaskRow>,
) -> Result<(), AllocError>
    requires { made + 1 < 2 ^ 64 }
    ensures { OnOk result (rows.new ≡ rows.old ++ children program.now state.now made (length state.now.tasks) (Some task)) }
{
    if state.tasks.len() as u64 == made {
        return Ok(());
    }
    let first = fresh_row(fork_of(program, state, task, made as usize));
    let second = fresh_row(fork_of(program, state, task, made as usize + 1));
    rows.push_pair(first, second)
}

/// Tells what an entry tells, behind which the machine is so.
pub(crate) fn tell_entry(
    program: &Program,
    state: &MachineState,
    made: u64,
    lost: u64,
    entry: Entry,
    rows: &mut Listed<TaskRow>,
) -> Result<(), AllocError>
    requires { made + 1 < 2 ^ 64 }
    ensures { OnOk result (rows.new ≡ rows_by program.now state.now made lost entry rows.old) }
{
    match task_in(entry.kind()) {
        None => Ok(()),
        Some(task) => {
            tell(rows, entry.worker(), lost, entry.kind(), task);
            add_children(program, state, made, task, rows)
        }
    }
}
