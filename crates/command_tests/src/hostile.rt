// Hostile sources, sinks and inputs: rows of one form, each a call.

use crate::calls::{ran, sink_of};
use command_core::CallResult;
use io_traits::{EmptyGate, MemSink, MemSource};
use std::alloc::{AllocError, Global};
use std::sync::Wait;
use std::thread::Threads;

// An input: these bytes, in each file too; or n times one byte.
#[derive(Clone, Copy)]
enum Input {
    Text(&'static [u8]),
    Many(u8, usize),
}

// The most bytes of one call of a source or a sink, and the call that fails, counted from 1.
type Calls = (usize, u64);

// No call fails.
const WHOLE: Calls = (65536, 0);

// The words, the input, the source, the sink; the status, what is written, the number of bytes of the input that aren't
// taken, and the number of entries of the journal returned.
type Row = (
    &'static str,
    Input,
    Calls,
    Calls,
    u8,
    &'static str,
    (usize, usize),
);

const SEVEN: &[u8] = b"fn main\nset i0 7\nout i0\nret\nend";

// A sink of one byte a call fails in each call that the run makes.
const SINKS: &[Row] = &[
    ("run", Input::Text(SEVEN), (16, 0), (1, 1), 9, "", (0, 3)),
    ("run", Input::Text(SEVEN), (16, 0), (1, 2), 9, "7", (0, 3)),
    ("run", Input::Text(SEVEN), (16, 0), (1, 3), 9, "7\n", (0, 3)),
    (
        "run",
        Input::Text(SEVEN),
        (16, 0),
        (1, 4),
        9,
        "7\ne",
        (0, 3),
    ),
    (
        "run",
        Input::Text(SEVEN),
        (16, 0),
        (1, 5),
        9,
        "7\nen",
        (0, 3),
    ),
    (
        "run",
        Input::Text(SEVEN),
        (16, 0),
        (1, 6),
        9,
        "7\nend",
        (0, 3),
    ),
    (
        "run",
        Input::Text(SEVEN),
        (16, 0),
        (1, 7),
        9,
        "7\nend:",
        (0, 3),
    ),
    (
        "run",
        Input::Text(SEVEN),
        (16, 0),
        (1, 8),
        9,
        "7\nend: ",
        (0, 3),
    ),
    (
        "run",
        Input::Text(SEVEN),
        (16, 0),
        (1, 9),
        9,
        "7\nend: d",
        (0, 3),
    ),
    (
        "run",
        Input::Text(SEVEN),
        (16, 0),
        (1, 10),
        9,
        "7\nend: do",
        (0, 3),
    ),
    (
        "run",
        Input::Text(SEVEN),
        (16, 0),
        (1, 11),
        9,
        "7\nend: don",
        (0, 3),
    ),
    (
        "run",
        Input::Text(SEVEN),
        (16, 0),
        (1, 12),
        9,
        "7\nend: done",
        (0, 3),
    ),
    (
        "run",
        Input::Text(SEVEN),
        (16, 0),
        (1, 13),
        0,
        "7\nend: done\n",
        (0, 3),
    ),
];

// A source fails in each call that a command makes, with a file and without one; or it returns few bytes a call, and
// the sink takes few.
const SOURCES: &[Row] = &[
    ("run", Input::Text(SEVEN), (16, 1), WHOLE, 8, "", (31, 0)),
    ("run", Input::Text(SEVEN), (16, 2), WHOLE, 8, "", (15, 0)),
    ("run", Input::Text(SEVEN), (16, 3), WHOLE, 8, "", (0, 0)),
    (
        "run",
        Input::Text(SEVEN),
        (16, 4),
        WHOLE,
        0,
        "7\nend: done\n",
        (0, 3),
    ),
    ("run", Input::Text(SEVEN), (4, 2), WHOLE, 8, "", (27, 0)),
    ("run p", Input::Text(SEVEN), (16, 1), WHOLE, 8, "", (31, 0)),
    (
        "check p",
        Input::Text(SEVEN),
        (16, 2),
        WHOLE,
        8,
        "",
        (31, 0),
    ),
    ("model p", Input::Text(SEVEN), (16, 4), WHOLE, 8, "", (0, 0)),
    (
        "check p",
        Input::Text(SEVEN),
        (16, 5),
        WHOLE,
        0,
        "end: accepted\n",
        (0, 0),
    ),
    (
        "run",
        Input::Text(SEVEN),
        WHOLE,
        (3, 0),
        0,
        "7\nend: done\n",
        (0, 3),
    ),
    ("run", Input::Text(SEVEN), WHOLE, (3, 2), 9, "7\ne", (0, 3)),
    (
        "run",
        Input::Text(SEVEN),
        (1, 0),
        (1, 0),
        0,
        "7\nend: done\n",
        (0, 3),
    ),
];

// Texts that aren't programs, and traces with a bad line.
const TEXTS: &[Row] = &[
    (
        "run",
        Input::Text(b"\xff"),
        WHOLE,
        WHOLE,
        3,
        "end: source refused line 1 notutf8\n",
        (0, 0),
    ),
    (
        "run",
        Input::Text(b"fn main"),
        WHOLE,
        WHOLE,
        3,
        "end: source refused line 1 noend\n",
        (0, 0),
    ),
    (
        "run",
        Input::Text(b"fn main\n"),
        WHOLE,
        WHOLE,
        3,
        "end: source refused line 2 noend\n",
        (0, 0),
    ),
    (
        "run",
        Input::Text(b"fn main\nset i16 1\nend"),
        WHOLE,
        WHOLE,
        3,
        "end: source refused line 2 operand\n",
        (0, 0),
    ),
    (
        "run",
        Input::Text(b"fn main\nset i0 9223372036854775808\nend"),
        WHOLE,
        WHOLE,
        3,
        "end: source refused line 2 operand\n",
        (0, 0),
    ),
    (
        "run",
        Input::Text(b"fn main\npar main x\nend"),
        WHOLE,
        WHOLE,
        3,
        "end: source refused line 2 noname\n",
        (0, 0),
    ),
    (
        "run",
        Input::Text(b"fn main\njmp a\nend\nfn g\nlab a\nend"),
        WHOLE,
        WHOLE,
        3,
        "end: source refused line 2 nolabel\n",
        (0, 0),
    ),
    (
        "replay",
        Input::Text(b"fn main\nset i0 7\nout i0\nret\nend\ntrace 9"),
        WHOLE,
        WHOLE,
        11,
        "end: trace refused line 6\n",
        (0, 0),
    ),
    (
        "replay",
        Input::Text(b"fn main\nset i0 7\nout i0\nret\nend\ntrace 1\n64 took 0"),
        WHOLE,
        WHOLE,
        11,
        "end: trace refused line 7\n",
        (0, 0),
    ),
    (
        "replay",
        Input::Text(b"fn main\nset i0 7\nout i0\nret\nend\ntrace 1\n0 ran 0 258"),
        WHOLE,
        WHOLE,
        11,
        "end: trace refused line 7\n",
        (0, 0),
    ),
    (
        "replay",
        Input::Text(b"fn main\nset i0 7\nout i0\nret\nend\ntrace 1\n0 some 0 0"),
        WHOLE,
        WHOLE,
        11,
        "end: trace refused line 7\n",
        (0, 0),
    ),
    (
        "replay",
        Input::Text(b"fn main\nset i0 7\nout i0\nret\nend\ntrace 1\n0 took 4294967296"),
        WHOLE,
        WHOLE,
        11,
        "end: trace refused line 7\n",
        (0, 0),
    ),
    (
        "replay",
        Input::Text(b"fn main\nset i0 7\nout i0\nret\nend\ntrace 1\n0 sweep 0"),
        WHOLE,
        WHOLE,
        11,
        "end: trace refused line 7\n",
        (0, 0),
    ),
];

// Inputs at the limit, one byte over it, and more.
const LONGEST: &[Row] = &[
    (
        "run",
        Input::Many(b'\n', 1_048_576),
        WHOLE,
        WHOLE,
        3,
        "end: source refused line 1048577 nomain\n",
        (0, 0),
    ),
    (
        "run",
        Input::Many(b'\n', 1_048_577),
        WHOLE,
        WHOLE,
        3,
        "end: source refused line 0 toolong\n",
        (0, 0),
    ),
    (
        "check",
        Input::Many(b'\n', 1_048_579),
        WHOLE,
        WHOLE,
        3,
        "end: source refused line 0 toolong\n",
        (2, 0),
    ),
    (
        "replay",
        Input::Many(b'\n', 16_777_217),
        WHOLE,
        WHOLE,
        3,
        "end: source refused line 0 toolong\n",
        (0, 0),
    ),
    (
        "model",
        Input::Many(b' ', 16_777_216),
        WHOLE,
        WHOLE,
        3,
        "end: source refused line 1 nomain\n",
        (0, 0),
    ),
];

fn bytes_of(alloc: Global, input: Input) -> Result<Vec<u8>, AllocError> {
    match input {
        Input::Text(text) => text.to_vec(alloc),
        Input::Many(byte, count) => {
            let mut bytes = Vec::new(alloc);
            bytes.resize(count, byte)?;
            Ok(bytes)
        }
    }
}

// The contents of each file.
fn named_of(alloc: Global, input: Input) -> Result<Vec<u8>, AllocError> {
    match input {
        Input::Text(text) => text.to_vec(alloc),
        Input::Many(_, _) => Ok(Vec::new(alloc)),
    }
}

fn source_for(alloc: Global, input: Input, (most, fails): Calls) -> Result<MemSource, AllocError> {
    let bytes = bytes_of(alloc, input)?;
    let named = named_of(alloc, input)?;
    let failing = [fails].to_vec(alloc)?;
    if most == 0 {
        return Err(AllocError);
    }
    Ok(MemSource::new(bytes, named, most, failing))
}

fn sink_for(alloc: Global, (most, fails): Calls) -> Result<MemSink, AllocError> {
    let failing = [fails].to_vec(alloc)?;
    if most == 0 {
        return Ok(sink_of(alloc));
    }
    Ok(MemSink::new(alloc, most, failing))
}

// The exit status, and the number of entries returned.
fn told_of(ran: Option<CallResult>) -> Option<(u8, usize)> {
    match ran {
        Some(ran) => Some((ran.status.code(), ran.journal.as_slice().len())),
        None => None,
    }
}

// Whether the call of a row, over this source and this sink, has the answer of the row.
fn is_answered<R: AllocGlobal + Threads + Wait + Sync>(
    rt: &R,
    (words, _, _, _, status, written, (left, entries)): Row,
    source: &mut MemSource,
    sink: &mut MemSink,
) -> bool {
    let told = told_of(ran(rt, (words, ""), source, sink, &EmptyGate));
    told == Some((status, entries))
        && sink.written() == written.as_bytes()
        && source.left().len() == left
}

fn is_met<R: AllocGlobal + Threads + Wait + Sync>(rt: &R, row: Row) -> bool {
    let source = source_for(rt.alloc(), row.1, row.2);
    let sink = sink_for(rt.alloc(), row.3);
    match (source, sink) {
        (Ok(mut source), Ok(mut sink)) => is_answered(rt, row, &mut source, &mut sink),
        _ => false,
    }
}

// The index, from 1 on, of the first row whose call has another answer; 0 if there is none.
fn first_unmet<R: AllocGlobal + Threads + Wait + Sync>(rt: &R, rows: &[Row]) -> u32 {
    let mut place = 1u32;
    for &row in rows {
        if !is_met(rt, row) {
            return place;
        }
        place = place.saturating_add(1);
    }
    0
}

#[test]
fn hostile_sinks(rt: HostRuntime) {
    assert!(rt; first_unmet(&rt, SINKS) == 0);
}

#[test]
fn hostile_sources(rt: HostRuntime) {
    assert!(rt; first_unmet(&rt, SOURCES) == 0);
}

#[test]
fn hostile_texts(rt: HostRuntime) {
    assert!(rt; first_unmet(&rt, TEXTS) == 0);
}

#[test]
fn longest_inputs(rt: HostRuntime) {
    assert!(rt; first_unmet(&rt, LONGEST) == 0);
}
