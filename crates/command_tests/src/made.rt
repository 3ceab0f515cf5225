// Made programs, run by one worker and by many.

use crate::calls::{Answer, answers_input, answers_leaving, ran, sink_of, source_of, status_with};
use command_core::CallResult;
use io_traits::{EmptyGate, MemSink};
use run_trace::{Entry, Version, trace_text};
use std::alloc::Global;
use std::sync::Wait;
use std::thread::Threads;

// The first made program. Its constants are the first three draws from seed 1.
const FIRST: &str =
    "fn f0\nmovr r3 r0\nset i2 2\nset i3 0\nnewm r0 i2 i3\nmovr r2 r0\nset i5 496\nset i2 0\nset i3 21\nset i7 7\nset i8 1\nlab a\nnewm r5 i2 i3\nputi r5 i2 i7\nsub i7 i7 i8\njz i7 b\njmp a\nlab b\nset i4 0\nputr r3 i4 r5\nset i3 1\nnewm r6 i2 i3\nputi r6 i2 i5\nputr r3 i4 r6\ngetr r7 r3 i4\ngeti i0 r7 i2\nnil r0\nret\nend\nfn main\nset i2 2\nset i3 0\nnewm r0 i2 i3\nmovr r9 r0\ncall f0\nset i4 0\ngetr r4 r9 i4\ngeti i6 r4 i4\nout i6\nret\nend\n";

// Whether the first program is made, and the input isn't touched.
fn first_is_made<R: AllocGlobal + Threads + Wait + Sync>(rt: &R) -> bool {
    let input = b"fn main".as_slice();
    let source = source_of(rt.alloc(), input);
    let first = (0, FIRST.as_bytes());
    answers_leaving(rt, ("make", "1 1"), source, first, input.len())
}

const ACCEPTED: Answer<'static> = (0, b"end: accepted\n");

#[test]
fn a_program_is_made(rt: HostRuntime) {
    let made = first_is_made(&rt);
    let accepted = answers_input(&rt, ("check", ""), FIRST.as_bytes(), ACCEPTED);
    assert!(rt; (made, accepted) == (true, true));
}

// What made programs print: the sum of the first draws of the functions reached from the first one, by the generator's
// rule.
const SUMS: &[(&str, &str)] = &[
    ("1 1 --run", "496\n"),
    ("7 60 --run", "31503\n"),
    ("4294967295 41 --run", "17857\n"),
];

// Whether a made program is done and begins with this, twice with the same bytes.
fn is_made_alike<R: AllocGlobal + Threads + Wait + Sync>(
    rt: &R,
    options: &str,
    first: &str,
) -> bool {
    let mut sink = sink_of(rt.alloc());
    let code = status_with(rt, ("make", options), &[], &mut sink);
    code == Some(0)
        && sink.written().starts_with(first.as_bytes())
        && answers_input(rt, ("make", options), &[], (0, sink.written()))
}

// Each made program prints its sum, twice with the same bytes.
#[test]
fn made_programs_write_their_sums(rt: HostRuntime) {
    for &(options, first) in SUMS {
        assert!(rt; is_made_alike(&rt, options, first), "{options}");
    }
}

// A larger one.
const LARGE: (&str, &str) = ("7 1000 --run", "496486\n");

#[test]
fn a_large_program_writes_its_sum(rt: HostRuntime) {
    assert!(rt; is_made_alike(&rt, LARGE.0, LARGE.1));
}

const WORKERS: &str = "--workers 4 --leaf 512 --inner 1024";

// The words for a made program, the command that replays its run, and what the program prints.
const SHARED: &[(&str, &str, &[u8])] = &[
    ("1 120", "replay", b"55024\nend: done\n"),
    ("1 500", "replay", b"237983\nend: done\n"),
];

// A larger one.
const LARGE_SHARED: (&str, &str, &[u8]) = ("7 1000", "model", b"496486\nend: done\n");

// Appends the trace of a journal to a program; returns whether there was memory for it.
fn add_trace(alloc: Global, text: &mut Vec<u8>, journal: &[Entry]) -> bool {
    match trace_text(alloc, Version::Two, journal) {
        Ok(trace) => text.extend_from_slice(trace.as_slice()).is_ok(),
        Err(_) => false,
    }
}

// Whether a command replays the journal of a program's run with this answer.
fn is_replayed<R: AllocGlobal + Threads + Wait + Sync>(
    rt: &R,
    command: &str,
    program: &[u8],
    journal: &[Entry],
    answer: Answer<'_>,
) -> bool {
    match program.to_vec(rt.alloc()) {
        Ok(mut text) => {
            add_trace(rt.alloc(), &mut text, journal)
                && answers_input(rt, (command, WORKERS), text.as_slice(), answer)
        }
        Err(_) => false,
    }
}

// What four workers return.
fn ran_by_four<R: AllocGlobal + Threads + Wait + Sync>(
    rt: &R,
    program: &[u8],
    sink: &mut MemSink,
) -> Option<CallResult> {
    match source_of(rt.alloc(), program) {
        Ok(mut source) => ran(rt, ("run", WORKERS), &mut source, sink, &EmptyGate),
        Err(_) => None,
    }
}

// Whether four workers print the sum, and the journal that they return is replayed.
fn is_shared<R: AllocGlobal + Threads + Wait + Sync>(
    rt: &R,
    command: &str,
    program: &[u8],
    sum: &[u8],
) -> bool {
    let mut sink = sink_of(rt.alloc());
    match ran_by_four(rt, program, &mut sink) {
        Some(ran) => {
            (ran.status.code(), sink.written()) == (0, sum)
                && is_replayed(rt, command, program, ran.journal.as_slice(), (0, sum))
        }
        None => false,
    }
}

// The same for a program that is made first.
fn is_made_and_shared<R: AllocGlobal + Threads + Wait + Sync>(
    rt: &R,
    (options, command, sum): (&str, &str, &[u8]),
) -> bool {
    let mut sink = sink_of(rt.alloc());
    let made = status_with(rt, ("make", options), &[], &mut sink);
    made == Some(0) && is_shared(rt, command, sink.written(), sum)
}

// Four workers print the sum, and the journal that they return is replayed.
#[test]
fn workers_share_made_programs(rt: HostRuntime) {
    for &row in SHARED {
        assert!(rt; is_made_and_shared(&rt, row), "{}", row.0);
    }
}

#[test]
fn workers_share_a_large_program(rt: HostRuntime) {
    assert!(rt; is_made_and_shared(&rt, LARGE_SHARED));
}

// A made program whose accesses are in order, and how all its runs begin: its outputs, and the numbers of tasks and
// steps.
const IN_ORDER: (&str, &[u8]) = ("7 60", b"31503\nreport tasks 59 steps 6936 turns ");

const CROWDS: &[&str] = &[
    "--workers 1 --report",
    "--workers 2 --report",
    "--workers 4 --report",
    "--workers 64 --report",
];

// Whether a run of a program is done and begins with this.
fn begins<R: AllocGlobal + Threads + Wait + Sync>(
    rt: &R,
    options: &str,
    program: &[u8],
    first: &[u8],
) -> bool {
    let mut sink = sink_of(rt.alloc());
    let code = status_with(rt, ("run", options), program, &mut sink);
    code == Some(0) && sink.written().starts_with(first)
}

// All schedules of the workers of a program in order have the same result.
#[test]
fn all_schedules_agree(rt: HostRuntime) {
    let mut made = sink_of(rt.alloc());
    let code = status_with(&rt, ("make", IN_ORDER.0), &[], &mut made);
    assert!(rt; code == Some(0));
    for &options in CROWDS {
        assert!(rt;
            begins(&rt, options, made.written(), IN_ORDER.1),
            "{options}"
        );
    }
}
