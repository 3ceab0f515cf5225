// What begins and ends with an entry.

ghost use Rattle.std.specs.Prelude.{◌≡◌, ◌<◌, ◌^◌, ◌+◌, ◌-◌, ◌∷◌, ◌++◌, [], take, OnOk, IfOk, string_bytes, slice_get, length, codes, option_copied};
ghost use Rattle.std.specs.List.{flat_map};
ghost use Rattle.json_text.specs.Json.{further, more_members};
ghost use Rattle.run_timeline.specs.Events.{arguments, two_numbers};
ghost use Rattle.json_text.specs.below.quoted_text.{task_name};
ghost use Rattle.run_timeline.specs.Entries.{task_ends, fork_line, next_line, first_taken, taken, fork_events, join_events, task_end_events, collection, marking, begins_and_ends, counter, counter_events, end_members, run_end, run_ended};

use crate::events::{EventWriter, Label, Place};
use json_text::{first_number, more_number, more_word};
use run_journal::{End, Kind, MachineState, Program, RunEnd, Task, TaskStatus};
use run_names::line_number;
use run_report::end_text;
use std::alloc::{AllocError, Global};

fn task_name(alloc: Global, task: u32) -> Result<String, AllocError>
    ensures { IfOk result (λ text. string_bytes text ≡ task_name task) }
{
    format!(in alloc; "task {task}")
}

/// The line of a waiting task's fork.
pub fn fork_line(program: &Program, task: Option<&Task>) -> u32
    ensures { result ≡ fork_line program.now (option_copied task.entry) }
{
    match task {
        None => 0,
        Some(task) => line_number(program.line(task.top.function, task.top.next.saturating_sub(1))),
    }
}

/// The line of a task's next instruction.
pub(crate) fn next_line(program: &Program, task: Option<&Task>) -> u32
    ensures { result ≡ next_line program.now (option_copied task.entry) }
{
    match task {
        None => 0,
        Some(task) => line_number(program.line(task.top.function, task.top.next)),
    }
}

/// The program, the machine after an entry, and where the events of the entry stand.
#[derive(Clone, Copy)]
pub(crate) struct EventContext<'a> {
    pub(crate) program: &'a Program,
    pub(crate) state: &'a MachineState,
    pub(crate) place: Place,
}

// Adds the members of a forked task's span.
fn add_fork(writer: &mut EventWriter, parent: u32, line: u32) -> Result<(), AllocError>
    ensures { OnOk result (writer.new.text.items ≡ writer.old.text.items ++ more_members (arguments (two_numbers (codes "parent") parent (codes "line") line)) ++ 125 ∷ []) }
{
    writer.begin_arguments()?;
    first_number(writer.alloc, &mut writer.text, b"parent", parent as u64)?;
    more_number(writer.alloc, &mut writer.text, b"line", line as u64)?;
    writer.end_arguments()
}

// Adds where a task is taken first.
fn add_first_taken(
    writer: &mut EventWriter,
    context: &EventContext,
    task: u32,
    parent: Option<u32>,
) -> Result<(), AllocError>
    requires { 0 < context.now.place.number }
    ensures { OnOk result (writer.new.text.items ≡ writer.old.text.items ++ flat_map further (first_taken context.now.program.now context.now.state.now task context.now.place.number context.now.place.lane parent)) }
{
    let name = task_name(writer.alloc, task)?;
    let label = Label {
        name: name.as_bytes(),
        category: b"task",
        phase: b"b",
    };
    let place = context.place;
    match parent {
        None => writer.add_span(&label, task as u64, place),
        Some(parent) => {
            let line = fork_line(context.program, context.state.tasks.get(parent as usize));
            writer.begin_span(&label, task as u64, place)?;
            add_fork(writer, parent, line)?;
            writer.end_arrow(b"fork", task as u64, place)
        }
    }
}

// Adds where a task is taken.
fn add_taken(writer: &mut EventWriter, context: &EventContext, task: u32) -> Result<(), AllocError>
    requires { 0 < context.now.place.number }
    ensures { OnOk result (writer.new.text.items ≡ writer.old.text.items ++ flat_map further (taken context.now.program.now context.now.state.now task context.now.place.number context.now.place.lane (slice_get context.now.state.now.tasks task))) }
{
    match context.state.tasks.get(task as usize) {
        None => Ok(()),
        Some(at) => {
            if at.joins == 0 {
                add_first_taken(writer, context, task, at.parent)
            } else {
                writer.end_arrow(b"join", task as u64, context.place)
            }
        }
    }
}

// Adds the arrows of a fork, where there is one.
fn add_forked(writer: &mut EventWriter, made: u64, now: u64, place: Place) -> Result<(), AllocError>
    requires few { made + 1 < 2 ^ 64 }
    requires first { 0 < place.number }
    ensures { OnOk result (writer.new.text.items ≡ writer.old.text.items ++ flat_map further (fork_events made now place.number place.lane)) }
{
    if now == made {
        return Ok(());
    }
    writer.begin_arrow(b"fork", made, place)?;
    writer.begin_arrow(b"fork", made + 1, place)
}

// Adds the arrow of a join.
fn add_joined(writer: &mut EventWriter, place: Place, parent: Option<u32>) -> Result<(), AllocError>
    requires { 0 < place.number }
    ensures { OnOk result (writer.new.text.items ≡ writer.old.text.items ++ flat_map further (join_events place.number place.lane parent)) }
{
    match parent {
        None => Ok(()),
        Some(parent) => writer.begin_arrow(b"join", parent as u64, place),
    }
}

// Adds the end of a task's span.
fn add_task_ends(writer: &mut EventWriter, task: u32, place: Place) -> Result<(), AllocError>
    ensures { OnOk result (writer.new.text.items ≡ writer.old.text.items ++ further (task_ends task place.number place.lane)) }
{
    let name = task_name(writer.alloc, task)?;
    let label = Label {
        name: name.as_bytes(),
        category: b"task",
        phase: b"e",
    };
    writer.add_span(&label, task as u64, place)
}

// Adds where a task ends, if it has.
fn add_ended(
    writer: &mut EventWriter,
    task: u32,
    place: Place,
    at: Option<&Task>,
) -> Result<(), AllocError>
    requires { 0 < place.number }
    ensures { OnOk result (writer.new.text.items ≡ writer.old.text.items ++ flat_map further (task_end_events task place.number place.lane (option_copied at.entry))) }
{
    let Some(at) = at else {
        return Ok(());
    };
    match at.status {
        TaskStatus::Ended(_, _) => add_task_ends(writer, task, place),
        TaskStatus::Joined => {
            add_task_ends(writer, task, place)?;
            add_joined(writer, place, at.parent)
        }
        _ => Ok(()),
    }
}

// Adds what steps of a task begin and end.
fn add_ran(
    writer: &mut EventWriter,
    context: &EventContext,
    made: u64,
    task: u32,
) -> Result<(), AllocError>
    requires few { made + 1 < 2 ^ 64 }
    requires first { 0 < context.now.place.number }
    ensures { OnOk result (writer.new.text.items ≡ writer.old.text.items ++ flat_map further (fork_events made (length context.now.state.now.tasks) context.now.place.number context.now.place.lane ++ task_end_events task context.now.place.number context.now.place.lane (slice_get context.now.state.now.tasks task))) }
{
    let state = context.state;
    add_forked(writer, made, state.tasks.len() as u64, context.place)?;
    add_ended(writer, task, context.place, state.tasks.get(task as usize))
}

// Adds where a leaf collection begins or ends.
fn add_collection(
    writer: &mut EventWriter,
    phase: &[u8],
    task: u32,
    place: Place,
) -> Result<(), AllocError>
    ensures { OnOk result (writer.new.text.items ≡ writer.old.text.items ++ flat_map further (collection phase.now task place.number place.lane ∷ [])) }
{
    let label = Label {
        name: b"leaf collection",
        category: b"leaf",
        phase,
    };
    writer.add_span(&label, task as u64, place)
}

// Adds where a marking begins or ends.
fn add_marking(
    writer: &mut EventWriter,
    phase: &[u8],
    task: u32,
    place: Place,
) -> Result<(), AllocError>
    ensures { OnOk result (writer.new.text.items ≡ writer.old.text.items ++ flat_map further (marking phase.now task place.number place.lane ∷ [])) }
{
    let label = Label {
        name: b"marking",
        category: b"inner",
        phase,
    };
    writer.add_span(&label, task as u64, place)
}

/// Adds what begins and ends with an entry.
pub(crate) fn add_begins_and_ends(
    writer: &mut EventWriter,
    context: &EventContext,
    made: u64,
    kind: Kind,
) -> Result<(), AllocError>
    requires few { made + 1 < 2 ^ 64 }
    requires first { 0 < context.now.place.number }
    ensures { OnOk result (writer.new.text.items ≡ writer.old.text.items ++ flat_map further (begins_and_ends context.now.program.now made context.now.state.now context.now.place.number context.now.place.lane kind)) }
{
    let place = context.place;
    match kind {
        Kind::Took(task) => add_taken(writer, context, task),
        Kind::Ran(task, _) => add_ran(writer, context, made, task),
        Kind::Begin(task) => add_collection(writer, b"b", task, place),
        Kind::End(task, _, _, _) => add_collection(writer, b"e", task, place),
        Kind::Mark(task) => add_marking(writer, b"b", task, place),
        Kind::Sweep(task, _) => add_marking(writer, b"e", task, place),
        _ => Ok(()),
    }
}

/// What a counter is called, and what it counts.
#[derive(Clone, Copy)]
pub(crate) struct Counter<'a> {
    pub(crate) name: &'a [u8],
    pub(crate) unit: &'a [u8],
}

// Adds a counter.
fn add_counter(
    writer: &mut EventWriter,
    drawn: &Counter,
    now: u64,
    number: u32,
) -> Result<(), AllocError>
    ensures { OnOk result (writer.new.text.items ≡ writer.old.text.items ++ further (counter drawn.now.name.now drawn.now.unit.now now number)) }
{
    let label = Label {
        name: drawn.name,
        category: b"pool",
        phase: b"C",
    };
    writer.add_comma()?;
    writer.begin_event(&label, number as u64 * 1000, 0)?;
    writer.begin_arguments()?;
    first_number(writer.alloc, &mut writer.text, drawn.unit, now)?;
    writer.end_arguments()
}

/// Adds a counter, where it became another.
pub(crate) fn add_counted(
    writer: &mut EventWriter,
    drawn: &Counter,
    before: u64,
    now: u64,
    number: u32,
) -> Result<(), AllocError>
    ensures { OnOk result (writer.new.text.items ≡ writer.old.text.items ++ flat_map further (counter_events drawn.now.name.now drawn.now.unit.now before now number)) }
{
    if now == before {
        return Ok(());
    }
    add_counter(writer, drawn, now, number)
}

// Adds the members of the end's event.
fn add_end_members(
    writer: &mut EventWriter,
    context: &EventContext,
    end: RunEnd,
) -> Result<(), AllocError>
    ensures { OnOk result (writer.new.text.items ≡ writer.old.text.items ++ more_members (end_members context.now.program.now context.now.state.now end)) }
{
    writer.begin_arguments()?;
    match end {
        RunEnd::Machine(End::Entangled(reader, _)) => {
            let line = next_line(context.program, context.state.tasks.get(reader as usize));
            first_number(writer.alloc, &mut writer.text, b"line", line as u64)?;
        }
        _ => {}
    }
    writer.end_event()
}

// The name of a run's end: its line without the line feed.
fn end_name(line: &[u8]) -> &[u8]
    ensures { result.now ≡ take (length line.now - 1) line.now }
{
    &line[..line.len().saturating_sub(1)]
}

// Adds the end of the run.
fn add_run_end(
    writer: &mut EventWriter,
    context: &EventContext,
    end: RunEnd,
) -> Result<(), AllocError>
    ensures { OnOk result (writer.new.text.items ≡ writer.old.text.items ++ further (run_end context.now.program.now context.now.state.now context.now.place.number context.now.place.lane end)) }
{
    let line = end_text(writer.alloc, end)?;
    let label = Label {
        name: end_name(line.as_bytes()),
        category: b"end",
        phase: b"i",
    };
    let place = context.place;
    writer.add_comma()?;
    writer.begin_event(&label, place.number as u64 * 1000, place.lane)?;
    more_word(&mut writer.text, b"s", b"g")?;
    add_end_members(writer, context, end)?;
    writer.end_event()
}

/// Adds the end of the run, if it has ended.
pub(crate) fn add_run_ended(
    writer: &mut EventWriter,
    context: &EventContext,
    end: Option<RunEnd>,
) -> Result<(), AllocError>
    ensures { OnOk result (writer.new.text.items ≡ writer.old.text.items ++ flat_map further (run_ended context.now.program.now context.now.state.now context.now.place.number context.now.place.lane end)) }
{
    match end {
        None => Ok(()),
        Some(end) => add_run_end(writer, context, end),
    }
}
