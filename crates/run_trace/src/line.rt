// The lines of a trace text.

ghost use Rattle.std.specs.Prelude.{◌≡◌, ◌++◌, [], OnOk, IfSome};
ghost use Rattle.run_trace.specs.Entry.{IsKind};
ghost use Rattle.run_trace.specs.Line.{unsigned_number, numbers_in, kind_of_words, kind_of_task, kind_of_count, kind_by, entry_by, said_by_words, trace_line, spaced, kind_words, entry_line};
ghost use Rattle.text_lines.specs.Lines.{words_of};

use crate::entry::{Entry, Kind, MARK_LIMIT, PRIVATE_LIMIT};
use crate::settings::WORKER_LIMIT;
use hh_lang::read_u32;
use std::alloc::{AllocError, Global};
use text_lines::next_word;

/// The meaning of a line of a trace text.
#[derive(Clone, Copy)]
pub(crate) enum TraceLine {
    /// It has no words.
    Nothing,
    /// An entry.
    Says(Entry),
    /// A malformed line.
    Wrong,
}

// A number of 32 bits without a sign.
fn read_number(word: &[u8]) -> Option<u32>
    ensures { result ≡ unsigned_number word.now }
{
    read_u32(word)
}

// An entry that names nothing.
fn read_alone(verb: &[u8]) -> Option<Kind>
    ensures { result ≡ kind_of_words verb.now [] }
{
    if verb == b"fuel".as_slice() {
        Some(Kind::Fuel)
    } else {
        None
    }
}

// An entry that names a task alone.
fn read_of_task(verb: &[u8], task: u32) -> Option<Kind>
    ensures { result ≡ kind_of_task verb.now task }
{
    if verb == b"took".as_slice() {
        Some(Kind::Took(task))
    } else if verb == b"chunk".as_slice() {
        Some(Kind::Chunk(task))
    } else if verb == b"begin".as_slice() {
        Some(Kind::Begin(task))
    } else if verb == b"putoff".as_slice() {
        Some(Kind::PutOff(task))
    } else if verb == b"mark".as_slice() {
        Some(Kind::Mark(task))
    } else {
        None
    }
}

// An entry that names a task and a count.
fn read_of_count(verb: &[u8], task: u32, count: u32) -> Option<Kind>
    ensures { result ≡ kind_of_count verb.now task count }
{
    if verb == b"ran".as_slice() {
        if 1 <= count && count <= PRIVATE_LIMIT + 1 {
            return Some(Kind::Ran(task, count));
        }
        return None;
    }
    if verb == b"some".as_slice() {
        if 1 <= count && count <= MARK_LIMIT {
            return Some(Kind::More(task, count));
        }
        return None;
    }
    if verb == b"sweep".as_slice() {
        Some(Kind::Sweep(task, count))
    } else {
        None
    }
}

// The entry of a word and the numbers after it.
fn read_kind(verb: &[u8], operands: &[u8]) -> Option<Kind>
    ensures { result ≡ kind_by verb.now (numbers_in (words_of operands.now)) }
{
    let Some((word, rest)) = next_word(operands) else {
        return read_alone(verb);
    };
    let task = read_number(word)?;
    let Some((word, rest)) = next_word(rest) else {
        return read_of_task(verb, task);
    };
    let count = read_number(word)?;
    let Some((word, rest)) = next_word(rest) else {
        return read_of_count(verb, task, count);
    };
    let given = read_number(word)?;
    let (word, rest) = next_word(rest)?;
    let left = read_number(word)?;
    match next_word(rest) {
        None if verb == b"end".as_slice() => Some(Kind::End(task, count, given, left)),
        _ => None,
    }
}

// An entry of the worker and its kind, if both are there.
fn entry_of(worker: Option<u32>, kind: Option<Kind>) -> TraceLine
    requires { IfSome kind IsKind }
    ensures { result ≡ entry_by worker kind }
{
    match (worker, kind) {
        (Some(worker), Some(kind)) if worker < WORKER_LIMIT => TraceLine::Says(Entry::new(
            worker, kind,
        )),
        _ => TraceLine::Wrong,
    }
}

// The meaning of the words of a line.
fn read_words(line: &[u8]) -> TraceLine
    ensures { result ≡ said_by_words (words_of line.now) }
{
    let Some((worker, rest)) = next_word(line) else {
        return TraceLine::Nothing;
    };
    match next_word(rest) {
        None => TraceLine::Wrong,
        Some((verb, operands)) => entry_of(read_number(worker), read_kind(verb, operands)),
    }
}

/// The meaning of a line.
pub(crate) fn read_line(line: &[u8]) -> TraceLine
    ensures { result ≡ trace_line line.now }
{
    match str::from_utf8(line) {
        Ok(_) => read_words(line),
        Err(_) => TraceLine::Wrong,
    }
}

// Appends the kind of an entry, after its worker.
fn add_kind(alloc: Global, text: &mut Vec<u8>, kind: Kind) -> Result<(), AllocError>
    ensures { OnOk result (text.new.items ≡ text.old.items ++ spaced (kind_words kind)) }
{
    let words = match kind {
        Kind::Took(task) => format!(in alloc; "took {task}")?,
        Kind::Ran(task, steps) => format!(in alloc; "ran {task} {steps}")?,
        Kind::Chunk(task) => format!(in alloc; "chunk {task}")?,
        Kind::Begin(task) => format!(in alloc; "begin {task}")?,
        Kind::End(task, taken, given, left) => format!(in alloc;
            "end {task} {taken} {given} {left}"
        )?,
        Kind::PutOff(task) => format!(in alloc; "putoff {task}")?,
        Kind::Mark(task) => format!(in alloc; "mark {task}")?,
        Kind::More(task, count) => format!(in alloc; "some {task} {count}")?,
        Kind::Sweep(task, given) => format!(in alloc; "sweep {task} {given}")?,
        Kind::Fuel => format!(in alloc; "fuel")?,
    };
    text.extend_from_slice(words.as_bytes())
}

/// Appends an entry's line.
pub(crate) fn add_entry(alloc: Global, text: &mut Vec<u8>, entry: Entry) -> Result<(), AllocError>
    ensures { OnOk result (text.new.items ≡ text.old.items ++ entry_line entry) }
{
    let worker = format!(in alloc; "{} ", entry.worker())?;
    text.extend_from_slice(worker.as_bytes())?;
    add_kind(alloc, text, entry.kind())?;
    text.extend_from_slice(b"\n")
}
