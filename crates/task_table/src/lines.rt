// The lines of the table.

ghost use Rattle.std.specs.Prelude.{◌≡◌, ◌++◌, OnOk, slice_get};
ghost use Rattle.run_journal.specs.below.hh_model.{row_of};
ghost use Rattle.task_table.specs.Lines.{field, number_field, maybe_field, signed_field, fork_fields, words_onto, status_word, end_word, place_fields, work_fields, memory_fields, task_line};

use crate::row::{ForkOrigin, TaskRow};
use run_journal::{End, MachineState, Object, Program, RunEnd, Task, TaskStatus};
use run_names::function_name;
use std::alloc::{AllocError, Global};

// Adds a value behind a comma.
fn add_field(text: &mut Vec<u8>, value: &[u8]) -> Result<(), AllocError>
    ensures { OnOk result (text.new.items ≡ text.old.items ++ field value.now) }
{
    text.push(b',')?;
    text.extend_from_slice(value)
}

fn add_number(alloc: Global, text: &mut Vec<u8>, number: u64) -> Result<(), AllocError>
    ensures { OnOk result (text.new.items ≡ text.old.items ++ number_field number) }
{
    let digits = format!(in alloc; "{number}")?;
    add_field(text, digits.as_bytes())
}

fn add_maybe(alloc: Global, text: &mut Vec<u8>, number: Option<u32>) -> Result<(), AllocError>
    ensures { OnOk result (text.new.items ≡ text.old.items ++ maybe_field number) }
{
    match number {
        None => add_field(text, b""),
        Some(number) => add_number(alloc, text, number as u64),
    }
}

fn add_signed(alloc: Global, text: &mut Vec<u8>, number: Option<i64>) -> Result<(), AllocError>
    ensures { OnOk result (text.new.items ≡ text.old.items ++ signed_field number) }
{
    match number {
        None => add_field(text, b""),
        Some(number) => {
            let digits = format!(in alloc; "{number}")?;
            add_field(text, digits.as_bytes())
        }
    }
}

fn add_fork(
    alloc: Global,
    text: &mut Vec<u8>,
    program: &Program,
    fork: Option<ForkOrigin>,
) -> Result<(), AllocError>
    ensures { OnOk result (text.new.items ≡ text.old.items ++ fork_fields program.now fork) }
{
    match fork {
        None => text.extend_from_slice(b",,,"),
        Some(fork) => {
            add_number(alloc, text, fork.line as u64)?;
            add_field(text, function_name(program, fork.function))?;
            add_signed(alloc, text, fork.number)
        }
    }
}

// What objects come to, in words.
fn words_of(objects: &[Object]) -> u64
    ensures { result ≡ words_onto 0 objects.now }
{
    let mut words: u64 = 0;
    for object in objects {
        words = words
            .saturating_add(2)
            .saturating_add(object.refs.len() as u64)
            .saturating_add(object.ints.len() as u64);
    }
    words
}

// The objects that a task allocated.
fn objects_of(state: &MachineState, task: u32) -> &[Object]
    ensures { result.now ≡ row_of (slice_get state.now.store task) }
{
    match state.store.get(task as usize) {
        None => &[],
        Some(objects) => objects.as_slice(),
    }
}

fn status_word(status: TaskStatus) -> &'static str
    ensures { result.now ≡ status_word status }
{
    match status {
        TaskStatus::Running => "running",
        TaskStatus::Waiting => "waiting",
        TaskStatus::Ended(_, _) => "ended",
        TaskStatus::Joined => "joined",
    }
}

fn end_word(end: Option<RunEnd>, task: u32, status: TaskStatus) -> &'static str
    ensures { result.now ≡ end_word end task status }
{
    match end {
        Some(RunEnd::Machine(End::Trapped(_, ender, _))) if ender == task => "trap",
        Some(RunEnd::Machine(End::Entangled(reader, _))) if reader == task => "entangled",
        _ => status_word(status),
    }
}

fn add_place(
    alloc: Global,
    text: &mut Vec<u8>,
    program: &Program,
    number: u32,
    task: &Task,
    row: TaskRow,
) -> Result<(), AllocError>
    ensures { OnOk result (text.new.items ≡ text.old.items ++ place_fields program.now number task.now row) }
{
    let digits = format!(in alloc; "{number}")?;
    text.extend_from_slice(digits.as_bytes())?;
    add_maybe(alloc, text, task.parent)?;
    add_fork(alloc, text, program, row.fork)?;
    add_number(alloc, text, task.depth as u64)
}

fn add_work(alloc: Global, text: &mut Vec<u8>, row: TaskRow) -> Result<(), AllocError>
    ensures { OnOk result (text.new.items ≡ text.old.items ++ work_fields row) }
{
    add_maybe(alloc, text, row.worker)?;
    add_number(alloc, text, row.entries)?;
    add_number(alloc, text, row.steps)
}

fn add_memory(
    alloc: Global,
    text: &mut Vec<u8>,
    objects: &[Object],
    row: TaskRow,
) -> Result<(), AllocError>
    ensures { OnOk result (text.new.items ≡ text.old.items ++ memory_fields objects.now row) }
{
    add_number(alloc, text, objects.len() as u64)?;
    add_number(alloc, text, words_of(objects))?;
    add_number(alloc, text, row.dropped)
}

/// Adds the line of a task.
pub(crate) fn add_line(
    alloc: Global,
    text: &mut Vec<u8>,
    program: &Program,
    state: &MachineState,
    end: Option<RunEnd>,
    number: u32,
    task: &Task,
    row: TaskRow,
) -> Result<(), AllocError>
    ensures { OnOk result (text.new.items ≡ text.old.items ++ task_line program.now state.now end number task.now row) }
{
    add_place(alloc, text, program, number, task, row)?;
    add_work(alloc, text, row)?;
    add_memory(alloc, text, objects_of(state, number), row)?;
    add_field(text, end_word(end, number, task.status).as_bytes())?;
    text.push(b'\n')?;
    Ok(())
}
