// A delta in the page's data.

ghost use Rattle.std.specs.Prelude.{◌≡◌, ◌∷◌, ◌++◌, [], codes, length, OnOk};
ghost use Rattle.std.specs.List.{flat_map};
ghost use Rattle.std.specs.Fmt.{decimal};
ghost use Rattle.page_data.specs.Values.{name, reference, number, value, more, member};
ghost use Rattle.page_data.specs.Deltas.{more_number, word, flag_digit, child, standing_word, task_now, fields, change, kind_numbers, entry_head, members, opening};

use crate::act::{add_count, add_last, more_flag, more_number, more_word};
use crate::heap::more_names;
use crate::values::{add_name, add_number, add_reference, add_value};
use hh_lang::Program;
use hh_model::Name;
use run_deltas::{Change, Delta, NewObject, NewTask, Standing, TaskNow, Write};
use run_names::{function_name, kind_name};
use run_trace::{Entry, Kind};
use std::alloc::{AllocError, Global};

/// Adds some bytes.
pub(crate) fn add_bytes(text: &mut Vec<u8>, bytes: &[u8]) -> Result<(), AllocError>
    ensures { OnOk result (text.new.items ≡ text.old.items ++ bytes.now) }
{
    text.extend_from_slice(bytes)
}

// Ends a list.
fn end_list(text: &mut Vec<u8>) -> Result<(), AllocError>
    ensures { OnOk result (text.new.items ≡ text.old.items ++ 93 ∷ []) }
{
    text.push(b']')?;
    Ok(())
}

#[tactic(auto, unfolding(crate::specs::Deltas::child))]
// Adds a task that was made.
fn add_child(
    alloc: Global,
    text: &mut Vec<u8>,
    program: &Program,
    of: NewTask,
) -> Result<(), AllocError>
    ensures { OnOk result (text.new.items ≡ text.old.items ++ child program.now of) }
{
    text.push(b'[')?;
    add_count(alloc, text, of.task as u64)?;
    more_number(alloc, text, of.parent as u64)?;
    more_word(text, function_name(program, of.function))?;
    text.push(b']')?;
    Ok(())
}

fn standing_word(standing: Standing) -> &'static str
    ensures { result.now ≡ standing_word standing }
{
    match standing {
        Standing::Ready => "ready",
        Standing::Out => "out",
        Standing::Waits => "waiting",
        Standing::HasEnded => "ended",
        Standing::HasJoined => "joined",
    }
}

#[tactic(auto, unfolding(crate::specs::Deltas::task_now))]
// Adds where a task stands, and what it holds.
fn add_task(alloc: Global, text: &mut Vec<u8>, of: &TaskNow) -> Result<(), AllocError>
    ensures { OnOk result (text.new.items ≡ text.old.items ++ task_now of.now) }
{
    text.push(b'[')?;
    add_count(alloc, text, of.task as u64)?;
    more_word(text, standing_word(of.standing).as_bytes())?;
    more_number(alloc, text, of.line as u64)?;
    more_names(alloc, text, of.holds.as_slice())?;
    text.push(b']')?;
    Ok(())
}

// Adds further references.
fn more_references(
    alloc: Global,
    text: &mut Vec<u8>,
    refs: &[Option<Name>],
) -> Result<(), AllocError>
    ensures { OnOk result (text.new.items ≡ text.old.items ++ flat_map (λ r. more (reference r)) refs.now) }
{
    for held in refs {
        text.push(b',')?;
        add_reference(alloc, text, *held)?;
    }
    Ok(())
}

// Adds further numbers.
fn more_numbers(alloc: Global, text: &mut Vec<u8>, ints: &[i64]) -> Result<(), AllocError>
    ensures { OnOk result (text.new.items ≡ text.old.items ++ flat_map (λ k. more (number k)) ints.now) }
{
    for held in ints {
        text.push(b',')?;
        add_number(alloc, text, *held)?;
    }
    Ok(())
}

// Adds what the fields of a new object hold.
fn add_fields(alloc: Global, text: &mut Vec<u8>, of: &NewObject) -> Result<(), AllocError>
    ensures { OnOk result (text.new.items ≡ text.old.items ++ fields of.now) }
{
    if of.mutable {
        return Ok(());
    }
    more_references(alloc, text, of.refs.as_slice())?;
    more_numbers(alloc, text, of.ints.as_slice())
}

// Adds a new object.
fn add_birth(alloc: Global, text: &mut Vec<u8>, of: &NewObject) -> Result<(), AllocError>
    ensures { OnOk result (text.new.items ≡ text.old.items ++ (name of.now.name ++ more (flag_digit of.now.mutable) ++ more_number (length of.now.refs) ++ more_number (length of.now.ints) ++ fields of.now)) }
{
    add_name(alloc, text, of.name)?;
    more_flag(text, of.mutable)?;
    more_number(alloc, text, of.refs.len() as u64)?;
    more_number(alloc, text, of.ints.len() as u64)?;
    add_fields(alloc, text, of)
}

// Adds a field that was written.
fn add_write(alloc: Global, text: &mut Vec<u8>, of: Write) -> Result<(), AllocError>
    ensures { OnOk result (text.new.items ≡ text.old.items ++ (name of.name ++ more_number of.field ++ more (value of.value))) }
{
    add_name(alloc, text, of.name)?;
    more_number(alloc, text, of.field as u64)?;
    text.push(b',')?;
    add_value(alloc, text, of.value)
}

fn add_new(alloc: Global, text: &mut Vec<u8>, of: &NewObject) -> Result<(), AllocError>
    ensures { OnOk result (text.new.items ≡ text.old.items ++ change (Change.New of.now)) }
{
    text.extend_from_slice(b"[\"new\",")?;
    add_birth(alloc, text, of)?;
    text.push(b']')?;
    Ok(())
}

fn add_set(alloc: Global, text: &mut Vec<u8>, of: Write) -> Result<(), AllocError>
    ensures { OnOk result (text.new.items ≡ text.old.items ++ change (Change.Set of)) }
{
    text.extend_from_slice(b"[\"set\",")?;
    add_write(alloc, text, of)?;
    text.push(b']')?;
    Ok(())
}

fn add_froze(alloc: Global, text: &mut Vec<u8>, of: Name) -> Result<(), AllocError>
    ensures { OnOk result (text.new.items ≡ text.old.items ++ change (Change.Froze of)) }
{
    text.extend_from_slice(b"[\"froze\",")?;
    add_name(alloc, text, of)?;
    text.push(b']')?;
    Ok(())
}

fn add_print(alloc: Global, text: &mut Vec<u8>, of: i64) -> Result<(), AllocError>
    ensures { OnOk result (text.new.items ≡ text.old.items ++ change (Change.Print of)) }
{
    text.extend_from_slice(b"[\"print\",")?;
    add_number(alloc, text, of)?;
    text.push(b']')?;
    Ok(())
}

// Adds what a step changes.
fn add_change(alloc: Global, text: &mut Vec<u8>, of: &Change) -> Result<(), AllocError>
    ensures { OnOk result (text.new.items ≡ text.old.items ++ change of.now) }
{
    match of {
        Change::New(birth) => add_new(alloc, text, birth),
        Change::Set(write) => add_set(alloc, text, *write),
        Change::Froze(name) => add_froze(alloc, text, *name),
        Change::Print(number) => add_print(alloc, text, *number),
    }
}

// Adds further ones of the tasks that were made.
fn more_children(
    alloc: Global,
    text: &mut Vec<u8>,
    program: &Program,
    rest: &[NewTask],
) -> Result<(), AllocError>
    ensures { OnOk result (text.new.items ≡ text.old.items ++ flat_map (λ x. more (child program.now x)) rest.now) }
{
    for of in rest {
        text.push(b',')?;
        add_child(alloc, text, program, *of)?;
    }
    Ok(())
}

// Adds the member of the tasks that were made, of which there is a first one.
fn add_listed_children(
    alloc: Global,
    text: &mut Vec<u8>,
    program: &Program,
    first: NewTask,
    rest: &[NewTask],
) -> Result<(), AllocError>
    ensures { OnOk result (text.new.items ≡ text.old.items ++ member (codes ",\"made\":[") (child program.now) (first ∷ rest.now)) }
{
    add_bytes(text, b",\"made\":[")?;
    add_child(alloc, text, program, first)?;
    more_children(alloc, text, program, rest)?;
    end_list(text)
}

// Adds the member of the tasks that were made.
fn add_children(
    alloc: Global,
    text: &mut Vec<u8>,
    program: &Program,
    all: &[NewTask],
) -> Result<(), AllocError>
    ensures { OnOk result (text.new.items ≡ text.old.items ++ member (codes ",\"made\":[") (child program.now) all.now) }
{
    match all {
        [] => Ok(()),
        [first, rest @ ..] => add_listed_children(alloc, text, program, *first, rest),
    }
}

// Adds further ones of where tasks stand.
fn more_tasks(alloc: Global, text: &mut Vec<u8>, rest: &[TaskNow]) -> Result<(), AllocError>
    ensures { OnOk result (text.new.items ≡ text.old.items ++ flat_map (λ x. more (task_now x)) rest.now) }
{
    for of in rest {
        text.push(b',')?;
        add_task(alloc, text, of)?;
    }
    Ok(())
}

// Adds the member of where tasks stand, of which there is a first one.
fn add_listed_tasks(
    alloc: Global,
    text: &mut Vec<u8>,
    first: &TaskNow,
    rest: &[TaskNow],
) -> Result<(), AllocError>
    ensures { OnOk result (text.new.items ≡ text.old.items ++ member (codes ",\"task\":[") task_now (first.now ∷ rest.now)) }
{
    add_bytes(text, b",\"task\":[")?;
    add_task(alloc, text, first)?;
    more_tasks(alloc, text, rest)?;
    end_list(text)
}

/// Adds the member of where tasks stand.
pub(crate) fn add_tasks(
    alloc: Global,
    text: &mut Vec<u8>,
    all: &[TaskNow],
) -> Result<(), AllocError>
    ensures { OnOk result (text.new.items ≡ text.old.items ++ member (codes ",\"task\":[") task_now all.now) }
{
    match all {
        [] => Ok(()),
        [first, rest @ ..] => add_listed_tasks(alloc, text, first, rest),
    }
}

// Adds further ones of what the steps change.
fn more_changes(alloc: Global, text: &mut Vec<u8>, rest: &[Change]) -> Result<(), AllocError>
    ensures { OnOk result (text.new.items ≡ text.old.items ++ flat_map (λ x. more (change x)) rest.now) }
{
    for of in rest {
        text.push(b',')?;
        add_change(alloc, text, of)?;
    }
    Ok(())
}

// Adds the member of what the steps change.
fn add_changes(alloc: Global, text: &mut Vec<u8>, all: &[Change]) -> Result<(), AllocError>
    ensures { OnOk result (text.new.items ≡ text.old.items ++ member (codes ",\"did\":[") change all.now) }
{
    match all {
        [] => Ok(()),
        [first, rest @ ..] => {
            text.extend_from_slice(b",\"did\":[")?;
            add_change(alloc, text, first)?;
            more_changes(alloc, text, rest)?;
            text.push(b']')?;
            Ok(())
        }
    }
}

#[tactic(auto, unfolding(crate::specs::Deltas::members))]
// Adds what an entry changes.
fn add_members(
    alloc: Global,
    text: &mut Vec<u8>,
    program: &Program,
    delta: &Delta,
) -> Result<(), AllocError>
    ensures { OnOk result (text.new.items ≡ text.old.items ++ members program.now delta.now) }
{
    add_last(alloc, text, delta.changes.last)?;
    add_children(alloc, text, program, delta.children.as_slice())?;
    add_tasks(alloc, text, delta.tasks.as_slice())?;
    add_changes(alloc, text, delta.changes.all.as_slice())
}

// Adds two further numbers.
fn more_two(alloc: Global, text: &mut Vec<u8>, first: u32, second: u32) -> Result<(), AllocError>
    ensures { OnOk result (text.new.items ≡ text.old.items ++ (more_number first ++ more_number second)) }
{
    more_number(alloc, text, first as u64)?;
    more_number(alloc, text, second as u64)
}

// Adds four further numbers.
fn more_four(
    alloc: Global,
    text: &mut Vec<u8>,
    first: u32,
    second: u32,
    third: u32,
    fourth: u32,
) -> Result<(), AllocError>
    ensures { OnOk result (text.new.items ≡ text.old.items ++ (more_number first ++ more_number second ++ more_number third ++ more_number fourth)) }
{
    more_two(alloc, text, first, second)?;
    more_two(alloc, text, third, fourth)
}

// Adds an entry's numbers.
fn add_numbers(alloc: Global, text: &mut Vec<u8>, kind: Kind) -> Result<(), AllocError>
    ensures { OnOk result (text.new.items ≡ text.old.items ++ kind_numbers kind) }
{
    match kind {
        Kind::Took(task) => more_number(alloc, text, task as u64),
        Kind::Ran(task, steps) => more_two(alloc, text, task, steps),
        Kind::Chunk(task) => more_number(alloc, text, task as u64),
        Kind::Begin(task) => more_number(alloc, text, task as u64),
        Kind::End(task, taken, given, left) => more_four(alloc, text, task, taken, given, left),
        Kind::PutOff(task) => more_number(alloc, text, task as u64),
        Kind::Mark(task) => more_number(alloc, text, task as u64),
        Kind::More(task, objects) => more_two(alloc, text, task, objects),
        Kind::Sweep(task, given) => more_two(alloc, text, task, given),
        Kind::Fuel => Ok(()),
    }
}

#[tactic(auto, unfolding(crate::specs::Deltas::entry_head))]
// Adds an entry without what it changes.
fn add_head(alloc: Global, text: &mut Vec<u8>, of: Entry) -> Result<(), AllocError>
    ensures { OnOk result (text.new.items ≡ text.old.items ++ entry_head of) }
{
    text.extend_from_slice(b"{\"e\":[")?;
    add_count(alloc, text, of.worker() as u64)?;
    more_word(text, kind_name(of.kind()).as_bytes())?;
    add_numbers(alloc, text, of.kind())?;
    text.push(b']')?;
    Ok(())
}

#[tactic(auto, unfolding(crate::specs::Deltas::opening))]
/// Adds an entry with its delta, on a line of its own behind what stands before it. It is ended by `close_entry`.
pub fn open_entry(
    alloc: Global,
    text: &mut Vec<u8>,
    program: &Program,
    of: Entry,
    delta: &Delta,
) -> Result<(), AllocError>
    ensures { OnOk result (text.new.items ≡ text.old.items ++ opening program.now of delta.now) }
{
    text.extend_from_slice(b",\n")?;
    add_head(alloc, text, of)?;
    add_members(alloc, text, program, delta)
}
