// An entry as a slice.

ghost use Rattle.std.specs.Prelude.{◌≡◌, ◌++◌, OnOk, IfOk, option_copied};
ghost use Rattle.json_text.specs.Json.{first_members, further, Number, Member, NoMember};
ghost use Rattle.run_timeline.specs.Entries.{task_place, begins_at, slice_name, numbers_of, of_task, slice};

use crate::events::{EventWriter, Label};
use crate::tasks::next_line;
use json_text::{add_number, first_number, more_number};
use run_journal::{Entry, Kind, MachineState, Program, Task};
use run_names::{function_name, kind_name};
use std::alloc::{AllocError, Global};

// Adds the function that a task is in, and the line of its next step.
fn add_place(
    alloc: Global,
    name: &mut Vec<u8>,
    program: &Program,
    task: Option<&Task>,
) -> Result<(), AllocError>
    ensures { OnOk result (name.new.items ≡ name.old.items ++ task_place program.now (option_copied task.entry)) }
{
    let line = next_line(program, task);
    let Some(task) = task else {
        return Ok(());
    };
    name.push(b' ')?;
    name.extend_from_slice(function_name(program, task.top.function))?;
    name.push(b':')?;
    add_number(alloc, name, line as u64)
}

// Adds where the steps of an entry begin.
fn add_beginning(
    alloc: Global,
    name: &mut Vec<u8>,
    program: &Program,
    state: &MachineState,
    kind: Kind,
) -> Result<(), AllocError>
    ensures { OnOk result (name.new.items ≡ name.old.items ++ begins_at program.now state.now kind) }
{
    match kind {
        Kind::Ran(task, _) => add_place(alloc, name, program, state.tasks.get(task as usize)),
        _ => Ok(()),
    }
}

/// The name of an entry in front of which the machine is this.
pub(crate) fn slice_name(
    alloc: Global,
    program: &Program,
    state: &MachineState,
    kind: Kind,
) -> Result<Vec<u8>, AllocError>
    ensures { IfOk result (λ name. name.items ≡ slice_name program.now state.now kind) }
{
    let mut name = Vec::new(alloc);
    name.extend_from_slice(kind_name(kind).as_bytes())?;
    add_beginning(alloc, &mut name, program, state, kind)?;
    Ok(name)
}

// Adds the task of an entry.
fn add_task(writer: &mut EventWriter, task: u32) -> Result<(), AllocError>
    ensures { OnOk result (writer.new.text.items ≡ writer.old.text.items ++ first_members (of_task task NoMember)) }
{
    first_number(writer.alloc, &mut writer.text, b"task", task as u64)
}

// Adds the task of an entry and a number with its name.
fn add_two(writer: &mut EventWriter, task: u32, name: &[u8], number: u32) -> Result<(), AllocError>
    ensures { OnOk result (writer.new.text.items ≡ writer.old.text.items ++ first_members (of_task task (Member name.now (Number number) NoMember))) }
{
    first_number(writer.alloc, &mut writer.text, b"task", task as u64)?;
    more_number(writer.alloc, &mut writer.text, name, number as u64)
}

// Adds what the end of a leaf collection says.
fn add_end(
    writer: &mut EventWriter,
    task: u32,
    kept: u32,
    given: u32,
    words: u32,
) -> Result<(), AllocError>
    ensures { OnOk result (writer.new.text.items ≡ writer.old.text.items ++ first_members (numbers_of (Kind.End task kept given words))) }
{
    first_number(writer.alloc, &mut writer.text, b"task", task as u64)?;
    more_number(writer.alloc, &mut writer.text, b"kept", kept as u64)?;
    more_number(writer.alloc, &mut writer.text, b"given", given as u64)?;
    more_number(writer.alloc, &mut writer.text, b"words", words as u64)
}

// Adds what an entry says.
fn add_numbers(writer: &mut EventWriter, kind: Kind) -> Result<(), AllocError>
    ensures { OnOk result (writer.new.text.items ≡ writer.old.text.items ++ first_members (numbers_of kind)) }
{
    match kind {
        Kind::Took(task) => add_task(writer, task),
        Kind::Ran(task, steps) => add_two(writer, task, b"steps", steps),
        Kind::Chunk(task) => add_task(writer, task),
        Kind::Begin(task) => add_task(writer, task),
        Kind::End(task, kept, given, words) => add_end(writer, task, kept, given, words),
        Kind::PutOff(task) => add_task(writer, task),
        Kind::Mark(task) => add_task(writer, task),
        Kind::More(task, objects) => add_two(writer, task, b"objects", objects),
        Kind::Sweep(task, given) => add_two(writer, task, b"given", given),
        Kind::Fuel => Ok(()),
    }
}

/// Adds the slice of the entry of a name and a number.
pub(crate) fn add_slice(
    writer: &mut EventWriter,
    name: &[u8],
    number: u32,
    entry: Entry,
) -> Result<(), AllocError>
    ensures { OnOk result (writer.new.text.items ≡ writer.old.text.items ++ further (slice name.now number entry)) }
{
    let time = number.saturating_sub(1) as u64 * 1000;
    let label = Label {
        name,
        category: b"entry",
        phase: b"X",
    };
    writer.add_comma()?;
    writer.begin_event(&label, time, entry.worker())?;
    more_number(writer.alloc, &mut writer.text, b"dur", 1000)?;
    writer.begin_arguments()?;
    add_numbers(writer, entry.kind())?;
    writer.end_arguments()
}
