// What calls take and leave: the journal and the shared value of a run, refused words, and an input of a thousand
// lines.

use crate::calls::{answers_leaving, ran, sink_of, source_of};
use command_core::CallResult;
use hh_model::End;
use io_traits::{EmptyGate, MemSink, MemSource};
use run_ledger::RunEnd;
use run_trace::{Entry, Kind};
use std::alloc::{AllocError, Global};
use std::sync::Wait;
use std::thread::Threads;

const SEVEN: &str = "fn main\nset i0 7\nout i0\nret\nend";

// A source of these bytes, in which each file is empty.
fn input_of(alloc: Global, bytes: &[u8]) -> Result<MemSource, AllocError> {
    let input = bytes.to_vec(alloc)?;
    Ok(MemSource::new(input, Vec::new(alloc), 65536, Vec::new(alloc)))
}

// Whether a journal begins with these entries of worker 0.
fn begins_with(journal: &[Entry], kinds: &[Kind]) -> bool {
    for (entry, kind) in journal.iter().zip(kinds) {
        if entry.worker() != 0 || entry.kind() != *kind {
            return false;
        }
    }
    kinds.len() <= journal.len()
}

// The exit status of a run, the number of entries it returns, and whether those of a table come first.
type Look = (u8, usize, bool);

fn look(ran: &CallResult, kinds: &[Kind]) -> Look {
    let journal = ran.journal.as_slice();
    (
        ran.status.code(),
        journal.len(),
        begins_with(journal, kinds),
    )
}

// The same for a run over a source and a sink.
fn looked<R: AllocGlobal + Threads + Wait + Sync>(
    rt: &R,
    source: &mut MemSource,
    sink: &mut MemSink,
    kinds: &[Kind],
) -> Option<Look> {
    match ran(rt, ("run", ""), source, sink, &EmptyGate) {
        Some(ran) => Some(look(&ran, kinds)),
        None => None,
    }
}

// The same, given the source.
fn looked_over<R: AllocGlobal + Threads + Wait + Sync>(
    rt: &R,
    source: Result<MemSource, AllocError>,
    sink: &mut MemSink,
    kinds: &[Kind],
) -> Option<Look> {
    match source {
        Ok(mut source) => looked(rt, &mut source, sink, kinds),
        Err(_) => None,
    }
}

// Whether the shared value returned is that of a run that printed one 7 in three steps.
fn has_shared(ran: &CallResult) -> bool {
    match &ran.shared {
        None => false,
        Some(shared) => {
            shared.outputs() == [7].as_slice()
                && shared.steps() == 3
                && shared.ended() == Some(RunEnd::Machine(End::Done))
        }
    }
}

const JOURNAL: &[Kind] = &[Kind::Took(0), Kind::Ran(0, 2), Kind::Ran(0, 1)];

// Whether this journal and this shared value are returned.
fn is_handed_back(ran: &CallResult) -> bool {
    let journal = ran.journal.as_slice();
    journal.len() == 3 && begins_with(journal, JOURNAL) && has_shared(ran)
}

// The same for a run over a source.
fn hands_back<R: AllocGlobal + Threads + Wait + Sync>(rt: &R, source: &mut MemSource) -> bool {
    let mut sink = sink_of(rt.alloc());
    match ran(rt, ("run", ""), source, &mut sink, &EmptyGate) {
        Some(ran) => is_handed_back(&ran),
        None => false,
    }
}

#[test]
fn what_a_run_hands_back(rt: HostRuntime) {
    let handed = match input_of(rt.alloc(), SEVEN.as_bytes()) {
        Ok(mut source) => hands_back(&rt, &mut source),
        Err(_) => false,
    };
    assert!(rt; handed);
}

// Words that are no command line. The input isn't touched.
const NO_LINES: &[&str] = &[
    "",
    "walk",
    "run --workers 65",
    "run --fuel 0",
    "run a b",
    "replay --leaf 15",
    "make 1 1 --runs",
    "make 1 0 --run",
    "model --leaf 15",
    "--help",
];

// Whether words are refused, and the input isn't touched.
fn is_refused<R: AllocGlobal + Threads + Wait + Sync>(rt: &R, line: &str) -> bool {
    let source = source_of(rt.alloc(), SEVEN.as_bytes());
    let refused = (2, b"end: words refused\n".as_slice());
    answers_leaving(rt, (line, ""), source, refused, SEVEN.len())
}

#[test]
fn words_are_refused(rt: HostRuntime) {
    for line in NO_LINES {
        assert!(rt; is_refused(&rt, line), "{line}");
    }
}

// Adds a line n times; returns whether there was memory for it.
fn add_lines(text: &mut Vec<u8>, count: u32, line: &[u8]) -> bool {
    for _ in 0..count {
        if text.extend_from_slice(line).is_err() {
            return false;
        }
    }
    true
}

// A program that sets a register 600 times, and prints it 400 times.
fn thousand_lines(alloc: Global) -> Option<Vec<u8>> {
    let mut text = Vec::new(alloc);
    if add_lines(&mut text, 1, b"fn main\n")
        && add_lines(&mut text, 600, b"set i0 5\n")
        && add_lines(&mut text, 400, b"out i0\n")
        && add_lines(&mut text, 1, b"end")
    {
        Some(text)
    } else {
        None
    }
}

const FIRST: &[Kind] = &[
    Kind::Took(0),
    Kind::Ran(0, 256),
    Kind::Ran(0, 256),
    Kind::Ran(0, 89),
    Kind::Ran(0, 1),
];

// The same for the run of the thousand lines.
fn thousand_run<R: AllocGlobal + Threads + Wait + Sync>(
    rt: &R,
    sink: &mut MemSink,
) -> Option<Look> {
    match thousand_lines(rt.alloc()) {
        Some(text) => looked_over(rt, source_of(rt.alloc(), text.as_slice()), sink, FIRST),
        None => None,
    }
}

#[test]
fn a_thousand_lines(rt: HostRuntime) {
    let mut sink = sink_of(rt.alloc());
    let look = thousand_run(&rt, &mut sink);
    let written = sink.written().len();
    assert!(rt; (look, written) == (Some((0, 404, true)), 400 * 2 + 10));
}
