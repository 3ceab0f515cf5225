// Calls besides runs: races, and replays of parallel loops. They return no run.

use crate::calls::{ran, sink_of, source_of};
use command_core::CallResult;
use io_traits::{EmptyGate, MemSink, MemSource};
use std::process::Abort;
use std::sync::Wait;
use std::thread::Threads;

/// The arguments of a call, its input, its exit status, and what it writes.
pub(crate) type Call = (&'static str, &'static str, u8, &'static str);

// It adds the doubles of 0 to 9, with one worker.
const TEN: &str =
    "fn dbl\nadd i0 i0 i0\nret\nend\nfn main\nset i0 0\nset i1 10\npfor dbl\nout i0\nret\nend\ntrace 2\n0 took 0\n0 ran 0 10\n0 took 1\n0 ran 1 12\n0 took 3\n0 ran 3 12\n0 took 5\n0 ran 5 17\n0 took 6\n0 ran 6 17\n0 took 3\n0 ran 3 4\n0 took 4\n0 ran 4 12\n0 took 7\n0 ran 7 17\n0 took 8\n0 ran 8 12\n0 took 9\n0 ran 9 17\n0 took 10\n0 ran 10 17\n0 took 8\n0 ran 8 4\n0 took 4\n0 ran 4 4\n0 took 1\n0 ran 1 4\n0 took 2\n0 ran 2 12\n0 took 11\n0 ran 11 12\n0 took 13\n0 ran 13 17\n0 took 14\n0 ran 14 17\n0 took 11\n0 ran 11 4\n0 took 12\n0 ran 12 12\n0 took 15\n0 ran 15 17\n0 took 16\n0 ran 16 12\n0 took 17\n0 ran 17 17\n0 took 18\n0 ran 18 17\n0 took 16\n0 ran 16 4\n0 took 12\n0 ran 12 4\n0 took 2\n0 ran 2 4\n0 took 0\n0 ran 0 4\n0 ran 0 1\n";

// The same over an empty range.
const NO_NUMBER: &str =
    "fn dbl\nadd i0 i0 i0\nret\nend\nfn main\nset i0 0\nset i1 0\npfor dbl\nout i0\nret\nend\ntrace 2\n0 took 0\n0 ran 0 9\n0 ran 0 1\n";

// Its loop calls a function that doesn't exist.
const NO_FUNCTION: &str =
    "fn dbl\nadd i0 i0 i0\nret\nend\nfn main\nset i0 0\nset i1 10\npfor x\nout i0\nret\nend\n";

// Two tasks write one field of the root's object, with a collection in between.
pub(crate) const COLLECTS: &str =
    "fn left\nset i0 0\nset i1 14\nnewm r1 i0 i1\nputr r0 i0 r1\nnil r1\nnewm r2 i0 i1\nret\nend\nfn right\nset i0 0\nnil r1\nputr r0 i0 r1\nret\nend\nfn main\nset i0 1\nset i1 0\nnewm r0 i0 i1\npar left right\nset i2 0\ngetr r3 r0 i2\nnil r4\nsame i3 r3 r4\nout i3\nret\nend\ntrace 1\n0 took 0\n0 ran 0 2\n0 chunk 0\n0 ran 0 2\n0 took 1\n1 took 2\n0 ran 1 2\n0 chunk 1\n0 ran 1 2\n0 ran 1 1\n0 begin 1\n1 ran 2 3\n0 end 1 1 1 16\n0 ran 1 2\n1 ran 2 1\n1 took 0\n1 ran 0 5\n1 ran 0 1\n";

// A task reads a field that a concurrent task has written: the read is stopped.
pub(crate) const ENTANGLES: &str =
    "fn left\nset i0 0\nset i1 1\nnewm r1 i0 i1\nputr r0 i0 r1\nret\nend\nfn right\nset i0 0\ngetr r1 r0 i0\nret\nend\nfn main\nset i0 1\nset i1 0\nnewm r0 i0 i1\npar left right\nret\nend\ntrace 2\n0 took 0\n0 ran 0 2\n0 chunk 0\n0 ran 0 2\n0 took 1\n0 ran 1 2\n0 chunk 1\n0 ran 1 2\n0 ran 1 1\n0 took 2\n0 ran 2 2\n";

// A task reads what it wrote itself.
const DISENTANGLED: &str =
    "fn left\nset i0 0\nset i1 1\nnewm r1 i0 i1\nset i2 42\nputi r1 i0 i2\nputr r0 i0 r1\ngetr r2 r0 i0\ngeti i0 r2 i0\nret\nend\nfn right\nset i0 0\nret\nend\nfn main\nset i0 1\nset i1 0\nnewm r0 i0 i1\npar left right\nout i0\nret\nend\ntrace 2\n0 took 0\n0 ran 0 2\n0 chunk 0\n0 ran 0 2\n0 took 1\n0 ran 1 2\n0 chunk 1\n0 ran 1 4\n0 ran 1 1\n0 ran 1 2\n0 took 2\n0 ran 2 2\n0 took 0\n0 ran 0 1\n0 ran 0 1\n";

// Two tasks swap into one field.
const SWAPS: &str =
    "fn left\nset i0 0\nset i1 1\nnewm r1 i0 i1\nnil r2\ncas i0 r0 i0 r2 r1\nret\nend\nfn right\nset i0 0\nset i1 1\nnewm r1 i0 i1\nnil r2\ncas i0 r0 i0 r2 r1\nret\nend\nfn main\nset i0 1\nset i1 0\nnewm r0 i0 i1\npar left right\nadd i2 i0 i1\nout i2\nout i0\nret\nend\ntrace 2\n0 took 0\n0 ran 0 2\n0 chunk 0\n0 ran 0 2\n0 took 2\n0 ran 2 2\n0 chunk 2\n0 ran 2 3\n0 ran 2 1\n0 took 1\n0 ran 1 2\n0 chunk 1\n0 ran 1 3\n0 ran 1 1\n0 took 0\n0 ran 0 2\n0 ran 0 1\n0 ran 0 1\n";

// Whether a call has this exit status, and returns no run.
fn has_status(ran: &CallResult, status: u8) -> bool {
    ran.journal.is_empty() && ran.shared.is_none() && ran.status.code() == status
}

// The same for a command line over a source.
fn exits_over<R: AllocGlobal + Threads + Wait + Sync>(
    rt: &R,
    line: &str,
    source: &mut MemSource,
    sink: &mut MemSink,
    status: u8,
) -> bool {
    match ran(rt, (line, ""), source, sink, &EmptyGate) {
        Some(ran) => has_status(&ran, status),
        None => false,
    }
}

/// Whether a command line that writes to a sink has this exit status, and returns no run.
pub(crate) fn exits<R: AllocGlobal + Threads + Wait + Sync>(
    rt: &R,
    line: &str,
    input: &[u8],
    sink: &mut MemSink,
    status: u8,
) -> bool {
    match source_of(rt.alloc(), input) {
        Ok(mut source) => exits_over(rt, line, &mut source, sink, status),
        Err(_) => false,
    }
}

/// The same for a command line that writes exactly these bytes.
pub(crate) fn answers<R: AllocGlobal + Threads + Wait + Sync>(
    rt: &R,
    line: &str,
    input: &[u8],
    status: u8,
    bytes: &[u8],
) -> bool {
    let mut sink = sink_of(rt.alloc());
    let exits = exits(rt, line, input, &mut sink, status);
    exits && sink.written() == bytes
}

/// Checks the answer of each call.
pub(crate) fn check_calls<R: Abort + AllocGlobal + Threads + Wait + Sync>(rt: &R, calls: &[Call]) {
    for &(line, input, status, bytes) in calls {
        let answers = answers(rt, line, input.as_bytes(), status, bytes.as_bytes());
        assert!(rt; answers, "{line}: {input}");
    }
}

const LOOPS: &[Call] = &[
    (
        "model --report",
        TEN,
        0,
        "90\nreport tasks 19 steps 313 turns 57\nreport leaf 0 putoff 0 freed 0\nreport inner 0 freed 0\nreport chunks 0 peak 0\nreport held 0 words 0\nend: done\n",
    ),
    ("model", NO_NUMBER, 0, "0\nend: done\n"),
    (
        "check",
        NO_FUNCTION,
        3,
        "end: source refused line 8 noname\n",
    ),
];

#[test]
fn loops_are_replayed(rt: HostRuntime) {
    check_calls(&rt, LOOPS);
}

const RACES: &[Call] = &[
    (
        "races --workers 2 --leaf 16",
        COLLECTS,
        12,
        "race 0 0 ref 0 tasks 1 2 lines 5 13\nend: races 1\n",
    ),
    (
        "races p.hh",
        ENTANGLES,
        12,
        "race 0 0 ref 0 tasks 1 2 lines 5 10\nend: races 1\n",
    ),
    ("races", DISENTANGLED, 0, "end: races 0\n"),
    ("races", SWAPS, 0, "end: races 0\n"),
];

#[test]
fn races_are_told(rt: HostRuntime) {
    check_calls(&rt, RACES);
}

const REFUSED: &[Call] = &[
    (
        "races",
        "fn main\nset i0 7\nout i0\nret\nend\ntrace 1\n0 took 0\n0 ran 0 2\n",
        11,
        "end: trace refused short\n",
    ),
    (
        "races",
        "fn main\nset i0 7\nout i0\nret\nend\ntrace 1\n0 took 0\n0 ran 0 3\n",
        11,
        "end: trace refused entry 2 long 2\n",
    ),
    (
        "races",
        "fn main\nset i0 7\nout i0\nret\nend\ntrace 1\n0 took 0\n0 ran 0\n",
        11,
        "end: trace refused line 8\n",
    ),
    (
        "races",
        "fn main\n",
        3,
        "end: source refused line 2 noend\n",
    ),
    (
        "races --report",
        "fn main\nset i0 7\nout i0\nret\nend\n",
        2,
        "end: words refused\n",
    ),
];

#[test]
fn races_are_refused_as_traces_are(rt: HostRuntime) {
    check_calls(&rt, REFUSED);
}
