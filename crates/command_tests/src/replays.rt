// Replays of journals, by the core and by the definitions alone, which write the same.

use crate::calls::{Row, answers_input, check_calls, sink_of, status_with};
use std::alloc::Global;
use std::sync::Wait;
use std::thread::Threads;

// Whole journals.
const REPLAYED: &[Row] = &[
    (
        "--workers 2 --leaf 16 --report",
        "fn left\nset i0 0\nset i1 14\nnewm r1 i0 i1\nputr r0 i0 r1\nnil r1\nnewm r2 i0 i1\nret\nend\nfn right\nset i0 0\nnil r1\nputr r0 i0 r1\nret\nend\nfn main\nset i0 1\nset i1 0\nnewm r0 i0 i1\npar left right\nset i2 0\ngetr r3 r0 i2\nnil r4\nsame i3 r3 r4\nout i3\nret\nend\ntrace 1\n0 took 0\n0 ran 0 2\n0 chunk 0\n0 ran 0 2\n0 took 1\n1 took 2\n0 ran 1 2\n0 chunk 1\n0 ran 1 2\n0 ran 1 1\n0 begin 1\n1 ran 2 3\n0 end 1 1 1 16\n0 ran 1 2\n1 ran 2 1\n1 took 0\n1 ran 0 5\n1 ran 0 1\n",
        0,
        "1\nreport tasks 3 steps 21 turns 18\nreport leaf 1 putoff 0 freed 0\nreport inner 0 freed 0\nreport chunks 2 peak 3\nreport held 3 words 35\nend: done\n",
    ),
    (
        "--inner 16 --report",
        "fn left\nset i0 0\ngetr r1 r0 i0\nnil r2\nputr r0 i0 r2\ngeti i0 r1 i0\nret\nend\nfn right\nret\nend\nfn main\nset i0 1\nset i1 0\nnewm r0 i0 i1\nset i0 0\nset i1 14\nnewm r1 i0 i1\nset i2 5\nputi r1 i0 i2\nputr r0 i0 r1\nnil r1\npar left right\nout i0\nret\nend\ntrace 1\n0 took 0\n0 ran 0 2\n0 chunk 0\n0 ran 0 9\n0 took 1\n0 ran 1 2\n0 ran 1 2\n0 mark 0\n0 some 0 64\n0 sweep 0 0\n0 ran 1 1\n0 ran 1 1\n0 took 2\n0 ran 2 1\n0 took 0\n0 ran 0 1\n0 ran 0 1\n",
        0,
        "5\nreport tasks 3 steps 20 turns 17\nreport leaf 0 putoff 0 freed 0\nreport inner 1 freed 0\nreport chunks 1 peak 1\nreport held 2 words 19\nend: done\n",
    ),
    (
        "--report",
        "fn left\nset i0 0\nset i1 1\nnewm r1 i0 i1\nputr r0 i0 r1\nret\nend\nfn right\nset i0 0\ngetr r1 r0 i0\nret\nend\nfn main\nset i0 1\nset i1 0\nnewm r0 i0 i1\npar left right\nret\nend\ntrace 1\n0 took 0\n0 ran 0 2\n0 chunk 0\n0 ran 0 2\n0 took 2\n0 ran 2 2\n0 ran 2 1\n0 took 1\n0 ran 1 2\n0 chunk 1\n0 ran 1 2\n0 ran 1 1\n0 took 0\n0 ran 0 1\n",
        0,
        "report tasks 3 steps 13 turns 14\nreport leaf 0 putoff 0 freed 0\nreport inner 0 freed 0\nreport chunks 2 peak 2\nreport held 2 words 6\nend: done\n",
    ),
    (
        "",
        "fn main\nend\ntrace 1\n00 took 00\n# c\n\n0 ran 0 01",
        0,
        "end: done\n",
    ),
    (
        "",
        "fn main\nset i0 0\nset i1 1023\nnewm r0 i0 i1\nret\nend\ntrace 1\n0 took 0\n0 ran 0 3\n",
        4,
        "end: trap size task 0 line 4\n",
    ),
    (
        "",
        "fn left\nset i0 0\nset i1 1\nnewm r1 i0 i1\nnil r2\ncas i0 r0 i0 r2 r1\nret\nend\nfn right\nset i0 0\nset i1 1\nnewm r1 i0 i1\nnil r2\ncas i0 r0 i0 r2 r1\nret\nend\nfn main\nset i0 1\nset i1 0\nnewm r0 i0 i1\npar left right\nadd i2 i0 i1\nout i2\nout i0\nret\nend\ntrace 2\n0 took 0\n0 ran 0 2\n0 chunk 0\n0 ran 0 2\n0 took 2\n0 ran 2 2\n0 chunk 2\n0 ran 2 3\n0 ran 2 1\n0 took 1\n0 ran 1 2\n0 chunk 1\n0 ran 1 3\n0 ran 1 1\n0 took 0\n0 ran 0 2\n0 ran 0 1\n0 ran 0 1\n",
        0,
        "1\n0\nend: done\n",
    ),
    (
        "--trace",
        "fn left\nset i0 0\nset i1 1\nnewm r1 i0 i1\nputr r0 i0 r1\nret\nend\nfn right\nset i0 0\ngetr r1 r0 i0\nret\nend\nfn main\nset i0 1\nset i1 0\nnewm r0 i0 i1\npar left right\nret\nend\ntrace 2\n0 took 0\n0 ran 0 2\n0 chunk 0\n0 ran 0 2\n0 took 1\n0 ran 1 2\n0 chunk 1\n0 ran 1 2\n0 ran 1 1 # ends\n\n0 took 2\n0 ran 2 2",
        5,
        "trace 2\n0 took 0\n0 ran 0 2\n0 chunk 0\n0 ran 0 2\n0 took 1\n0 ran 1 2\n0 chunk 1\n0 ran 1 2\n0 ran 1 1\n0 took 2\n0 ran 2 2\nend: entangled reader 2 owner 1\n",
    ),
    (
        "--fuel 1",
        "fn main\nset i0 7\nout i0\nret\nend\ntrace 1\n0 took 0\n0 ran 0 2\n0 fuel\n",
        6,
        "7\nend: fuel 2\n",
    ),
    (
        "--chunks 2",
        "fn main\nset i0 0\nset i1 1022\nlab a\nnewm r0 i0 i1\njmp a\nend\ntrace 1\n0 took 0\n0 ran 0 2\n0 chunk 0\n0 ran 0 2\n0 chunk 0\n0 ran 0 2\n0 chunk 0\n",
        7,
        "end: pool 2\n",
    ),
];

#[test]
fn journals_are_replayed(rt: HostRuntime) {
    check_calls(&rt, "replay", REPLAYED);
    check_calls(&rt, "model", REPLAYED);
}

// An entry, a line or a program that is refused, and a journal without an end.
const REFUSED: &[Row] = &[
    (
        "",
        "fn main\nset i0 7\nout i0\nret\nend\ntrace 1\n0 took 0\n0 ran 0 3\n",
        11,
        "end: trace refused entry 2 long 2\n",
    ),
    (
        "",
        "fn main\nset i0 7\nout i0\nret\nend\ntrace 1\n0 took 0\n0 ran 0 2\n",
        11,
        "end: trace refused short\n",
    ),
    (
        "",
        "fn main\nset i0 7\nout i0\nret\nend\ntrace 1\n0 took 0\n0 ran 0\n",
        11,
        "end: trace refused line 8\n",
    ),
    (
        "",
        "fn main\nset i0 7\nout i0\nret\nend\ntrace 1\n0 took 0\n0 ran 0 2\n0 ran 0 1\n0 fuel\n",
        11,
        "end: trace refused entry 4 over\n",
    ),
    (
        "",
        "fn main\nset i0 7\nout i0\nret\nend\ntrace 1\n1 took 0\n",
        11,
        "end: trace refused entry 1 noworker\n",
    ),
    (
        "--workers 2 --leaf 16 --report",
        "fn left\nset i0 0\nset i1 14\nnewm r1 i0 i1\nputr r0 i0 r1\nnil r1\nnewm r2 i0 i1\nret\nend\nfn right\nset i0 0\nnil r1\nputr r0 i0 r1\nret\nend\nfn main\nset i0 1\nset i1 0\nnewm r0 i0 i1\npar left right\nset i2 0\ngetr r3 r0 i2\nnil r4\nsame i3 r3 r4\nout i3\nret\nend\ntrace 1\n0 took 0\n0 ran 0 2\n0 chunk 0\n0 ran 0 2\n0 took 1\n1 took 2\n0 ran 1 2\n0 chunk 1\n0 ran 1 2\n0 ran 1 1\n0 begin 1\n1 ran 2 3\n0 end 1 1 1 15\n0 ran 1 2\n1 ran 2 1\n1 took 0\n1 ran 0 5\n1 ran 0 1\n",
        11,
        "end: trace refused entry 13 count 15 16\n",
    ),
    (
        "",
        "fn main\nset i0 7\nout i0\nret\nend\ntrace 9",
        11,
        "end: trace refused line 6\n",
    ),
    (
        "",
        "fn main\nset i0 7\nout i0\nret\nend\ntrace 1\n64 took 0",
        11,
        "end: trace refused line 7\n",
    ),
    (
        "",
        "fn main\nset i0 7\nout i0\nret\nend\ntrace 1\n0 ran 0 258",
        11,
        "end: trace refused line 7\n",
    ),
    (
        "",
        "fn main\nset i0 7\nout i0\nret\nend\ntrace 1\n0 some 0 0",
        11,
        "end: trace refused line 7\n",
    ),
    (
        "",
        "fn main\nset i0 7\nout i0\nret\nend\ntrace 1\n0 took 4294967296",
        11,
        "end: trace refused line 7\n",
    ),
    (
        "",
        "fn main\nset i0 7\nout i0\nret\nend\ntrace 1\n0 sweep 0",
        11,
        "end: trace refused line 7\n",
    ),
    ("", "fn main\nend\n", 11, "end: trace refused line 3\n"),
    (
        "",
        "fn main\nend\ntrace\n",
        11,
        "end: trace refused line 3\n",
    ),
    (
        "",
        "fn main\nend\ntrace 1\ntrace 1\n",
        11,
        "end: trace refused line 4\n",
    ),
    (
        "",
        "fn main\nset i0 0\nset i1 1023\nnewm r0 i0 i1\nret\nend\ntrace 2\n0 took 0\n0 ran 0 3\n",
        11,
        "end: trace refused entry 2 long 2\n",
    ),
    (
        "",
        "fn main\nset i0 0\nset i1 1\nnewm r0 i0 i1\nfreeze r0\nputi r0 i0 i1\nret\nend\ntrace 1\n0 took 0\n",
        11,
        "end: trace refused line 9\n",
    ),
    (
        "",
        "fn main\nset i0 7\nout i0\nret\nend",
        11,
        "end: trace refused line 5\n",
    ),
    (
        "",
        "fn main\nset i0 7\nout i0\nret\nend\nx\ntrace 9\n",
        3,
        "end: source refused line 6 word\n",
    ),
    (
        "",
        "fn main\nset i0 7\nout i0\nret\nend\nfn f\nfreeze r0\nend\ntrace 1\nx",
        11,
        "end: trace refused line 9\n",
    ),
];

#[test]
fn replays_are_refused(rt: HostRuntime) {
    check_calls(&rt, "replay", REFUSED);
    check_calls(&rt, "model", REFUSED);
}

// A program with a journal in which two workers collect, overwrite and join.
const COLLECTED: &str =
    "fn left\nset i0 0\nset i1 14\nnewm r1 i0 i1\nputr r0 i0 r1\nnil r1\nnewm r2 i0 i1\nret\nend\nfn right\nset i0 0\nnil r1\nputr r0 i0 r1\nret\nend\nfn main\nset i0 1\nset i1 0\nnewm r0 i0 i1\npar left right\nset i2 0\ngetr r3 r0 i2\nnil r4\nsame i3 r3 r4\nout i3\nret\nend\ntrace 1\n0 took 0\n0 ran 0 2\n0 chunk 0\n0 ran 0 2\n0 took 1\n1 took 2\n0 ran 1 2\n0 chunk 1\n0 ran 1 2\n0 ran 1 1\n0 begin 1\n1 ran 2 3\n0 end 1 1 1 16\n0 ran 1 2\n1 ran 2 1\n1 took 0\n1 ran 0 5\n1 ran 0 1\n";

// A program with a journal in which a waiting heap is marked and swept.
const MARKED: &str =
    "fn left\nset i0 0\ngetr r1 r0 i0\nnil r2\nputr r0 i0 r2\ngeti i0 r1 i0\nret\nend\nfn right\nret\nend\nfn main\nset i0 1\nset i1 0\nnewm r0 i0 i1\nset i0 0\nset i1 14\nnewm r1 i0 i1\nset i2 5\nputi r1 i0 i2\nputr r0 i0 r1\nnil r1\npar left right\nout i0\nret\nend\ntrace 1\n0 took 0\n0 ran 0 2\n0 chunk 0\n0 ran 0 9\n0 took 1\n0 ran 1 2\n0 ran 1 2\n0 mark 0\n0 some 0 64\n0 sweep 0 0\n0 ran 1 1\n0 ran 1 1\n0 took 2\n0 ran 2 1\n0 took 0\n0 ran 0 1\n0 ran 0 1\n";

// Whether a replay by the core has the exit status of one by the definitions alone, and writes the same.
fn are_alike<R: AllocGlobal + Threads + Wait + Sync>(rt: &R, options: &str, input: &[u8]) -> bool {
    let mut sink = sink_of(rt.alloc());
    match status_with(rt, ("replay", options), input, &mut sink) {
        Some(status) => answers_input(rt, ("model", options), input, (status, sink.written())),
        None => false,
    }
}

// The text with another digit at one position.
fn with_other_digit(alloc: Global, text: &[u8], at: usize) -> Option<Vec<u8>> {
    let Ok(mut changed) = text.to_vec(alloc) else {
        return None;
    };
    if let Some(byte) = changed.get_mut(at) {
        *byte = if *byte == b'1' { b'2' } else { b'1' };
    }
    Some(changed)
}

// Whether both replays write the same for the text with another digit at one position.
fn are_alike_at<R: AllocGlobal + Threads + Wait + Sync>(
    rt: &R,
    (options, text): (&str, &[u8]),
    at: usize,
) -> bool {
    match with_other_digit(rt.alloc(), text, at) {
        Some(changed) => are_alike(rt, options, changed.as_slice()),
        None => false,
    }
}

// The number of digits of the trace that can be changed, each alone, with the same results of both replays; None if
// these differ.
fn alike_changes<R: AllocGlobal + Threads + Wait + Sync>(
    rt: &R,
    options: &str,
    text: &[u8],
    from: usize,
) -> Option<u32> {
    let mut digits = 0u32;
    for at in from..text.len() {
        if text[at].is_ascii_digit() {
            if !are_alike_at(rt, (options, text), at) {
                return None;
            }
            digits = digits.saturating_add(1);
        }
    }
    Some(digits)
}

// The options of both replays, a text, where its trace begins, and the number of its digits.
const CHANGED: &[(&str, &str, usize, u32)] = &[
    ("--workers 2 --leaf 16 --report", COLLECTED, 253, 50),
    ("--inner 16 --report", MARKED, 246, 46),
];

// Each digit of the traces is changed in turn.
#[test]
fn replays_are_as_modelled(rt: HostRuntime) {
    for &(options, text, from, digits) in CHANGED {
        let alike = alike_changes(&rt, options, text.as_bytes(), from);
        assert!(rt; alike == Some(digits), "{options}");
    }
}
