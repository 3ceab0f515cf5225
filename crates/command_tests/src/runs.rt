// Runs by their texts: outputs, reports, traces and end lines.

use crate::calls::{Row, check_calls, sink_of, status_with};
use std::sync::Wait;
use std::thread::Threads;

// Runs with their reports: leaf collections, chunks that end the run, large objects, the deepest forks.
const REPORTED: &[Row] = &[
    (
        "--leaf 64 --report",
        "fn main\nset i0 0\nset i1 8\nset i2 1\nset i3 100\nlab top\nnewm r0 i0 i1\nsub i3 i3 i2\njz i3 done\njmp top\nlab done\nret\nend",
        0,
        "report tasks 1 steps 404 turns 46\nreport leaf 14 putoff 0 freed 970\nreport inner 0 freed 0\nreport chunks 1 peak 2\nreport held 3 words 30\nend: done\n",
    ),
    (
        "--leaf 16 --report",
        "fn nop\nret\nend\nfn store\nset i0 0\nset i1 1\nnewm r1 i0 i1\nset i2 7\nputi r1 i0 i2\nputr r0 i0 r1\nret\nend\nfn mid\npar nop store\nset i2 0\nset i3 18\nnewm r2 i2 i3\nnewm r2 i2 i3\nret\nend\nfn main\nset i0 1\nset i1 0\nnewm r0 i0 i1\nmovr r5 r0\npar mid nop\nset i2 0\ngetr r3 r5 i2\ngeti i4 r3 i2\nout i4\nret\nend",
        0,
        "7\nreport tasks 5 steps 25 turns 25\nreport leaf 1 putoff 0 freed 0\nreport inner 0 freed 0\nreport chunks 2 peak 4\nreport held 4 words 46\nend: done\n",
    ),
    (
        "--chunks 3 --leaf 1000 --report",
        "fn main\nset i0 1\nset i1 597\nlab top\nnewm r1 i0 i1\nset i2 0\nputr r1 i2 r0\nmovr r0 r1\njmp top\nend",
        7,
        "report tasks 1 steps 17 turns 10\nreport leaf 0 putoff 1 freed 0\nreport inner 0 freed 0\nreport chunks 3 peak 3\nreport held 0 words 0\nend: pool 3\n",
    ),
    (
        "--chunks 5 --leaf 1000 --report",
        "fn main\nset i0 1\nset i1 597\nlab top\nnewm r1 i0 i1\nset i2 0\nputr r1 i2 r0\nmovr r0 r1\njmp top\nend",
        7,
        "report tasks 1 steps 27 turns 16\nreport leaf 1 putoff 1 freed 0\nreport inner 0 freed 0\nreport chunks 5 peak 5\nreport held 0 words 0\nend: pool 5\n",
    ),
    (
        "--report",
        "fn main\npar main main\nend",
        4,
        "report tasks 2001 steps 1001 turns 2002\nreport leaf 0 putoff 0 freed 0\nreport inner 0 freed 0\nreport chunks 0 peak 0\nreport held 0 words 0\nend: trap depth task 1999 line 2\n",
    ),
    (
        "--chunks 2 --leaf 64 --report",
        "fn main\nset i0 0\nset i1 8\nset i2 1\nset i3 100\nlab top\nnewm r0 i0 i1\nsub i3 i3 i2\njz i3 done\njmp top\nlab done\nret\nend",
        0,
        "report tasks 1 steps 404 turns 46\nreport leaf 14 putoff 0 freed 970\nreport inner 0 freed 0\nreport chunks 1 peak 2\nreport held 3 words 30\nend: done\n",
    ),
    (
        "--report",
        "fn main\nset i0 0\nset i1 1023\nnewm r0 i0 i1\nret\nend",
        0,
        "report tasks 1 steps 4 turns 4\nreport leaf 0 putoff 0 freed 0\nreport inner 0 freed 0\nreport chunks 2 peak 2\nreport held 1 words 1025\nend: done\n",
    ),
    (
        "--report",
        "fn main\nset i0 0\nset i1 1000000\nnewm r0 i0 i1\nret\nend",
        0,
        "report tasks 1 steps 4 turns 4\nreport leaf 0 putoff 0 freed 0\nreport inner 0 freed 0\nreport chunks 977 peak 977\nreport held 1 words 1000002\nend: done\n",
    ),
    (
        "--report",
        "fn left\nset i0 0\nset i1 1\nnewm r1 i0 i1\nnil r2\ncas i0 r0 i0 r2 r1\nret\nend\nfn right\nset i0 0\nset i1 1\nnewm r1 i0 i1\nnil r2\ncas i0 r0 i0 r2 r1\nret\nend\nfn main\nset i0 1\nset i1 0\nnewm r0 i0 i1\npar left right\nadd i2 i0 i1\nout i2\nout i0\nret\nend",
        0,
        "1\n1\nreport tasks 3 steps 20 turns 18\nreport leaf 0 putoff 0 freed 0\nreport inner 0 freed 0\nreport chunks 3 peak 3\nreport held 3 words 9\nend: done\n",
    ),
    (
        "--report",
        "fn dbl\nadd i0 i0 i0\nret\nend\nfn main\nset i0 0\nset i1 10\npfor dbl\nout i0\nret\nend",
        0,
        "90\nreport tasks 19 steps 313 turns 57\nreport leaf 0 putoff 0 freed 0\nreport inner 0 freed 0\nreport chunks 0 peak 0\nreport held 0 words 0\nend: done\n",
    ),
];

#[test]
fn reported_runs(rt: HostRuntime) {
    check_calls(&rt, "run", REPORTED);
}

// Runs by what they write: down-pointers on the own path, entangled reads, traps, frozen objects, loops, compare and
// swap.
const PLAIN: &[Row] = &[
    (
        "",
        "fn main\nset i0 7\nout i0\nret\nend",
        0,
        "7\nend: done\n",
    ),
    (
        "",
        "fn left\nset i0 0\nset i1 1\nnewm r1 i0 i1\nset i2 42\nputi r1 i0 i2\nputr r0 i0 r1\ngetr r2 r0 i0\ngeti i0 r2 i0\nret\nend\nfn right\nset i0 0\nret\nend\nfn main\nset i0 1\nset i1 0\nnewm r0 i0 i1\npar left right\nout i0\nret\nend",
        0,
        "42\nend: done\n",
    ),
    (
        "",
        "fn main\nset i0 0\nset i1 1022\nnewm r0 i0 i1\nret\nend",
        0,
        "end: done\n",
    ),
    (
        "",
        "fn nop\nret\nend\nfn mk\nset i0 0\nset i1 1\nnewm r1 i0 i1\nputr r0 i0 r1\nret\nend\nfn left\npar mk nop\nret\nend\nfn right\nset i0 0\ngetr r1 r0 i0\nret\nend\nfn main\nset i0 1\nset i1 0\nnewm r0 i0 i1\npar left right\nret\nend",
        5,
        "end: entangled reader 2 owner 1\n",
    ),
    (
        "--workers 2",
        "fn left\nset i1 10\nadd i0 i1 i2\nret\nend\nfn right\nset i1 20\nadd i0 i1 i2\nret\nend\nfn main\nset i2 3\npar left right\nadd i0 i0 i1\nout i0\nret\nend",
        0,
        "36\nend: done\n",
    ),
    (
        "",
        "fn main\nset i0 -9223372036854775808\nset i1 -1\ndiv i2 i0 i1\nout i2\nrem i3 i0 i1\nout i3\nadd i2 i0 i1\nout i2\nset i1 0\ndiv i2 i0 i1\nret\nend",
        4,
        "-9223372036854775808\n0\n9223372036854775807\nend: trap div task 0 line 11\n",
    ),
    (
        "--chunks 2",
        "fn main\nset i0 1\nset i1 597\nlab top\nnewm r1 i0 i1\nset i2 0\nputr r1 i2 r0\nmovr r0 r1\njmp top\nend",
        7,
        "end: pool 2\n",
    ),
    (
        "",
        "fn main\nset i0 -7\nset i1 2\ndiv i2 i0 i1\nout i2\nrem i2 i0 i1\nout i2\nset i0 7\nset i1 -2\ndiv i2 i0 i1\nout i2\nrem i2 i0 i1\nout i2\nset i0 -7\nset i1 -2\ndiv i2 i0 i1\nout i2\nrem i2 i0 i1\nout i2\nset i0 7\nset i1 2\ndiv i2 i0 i1\nout i2\nrem i2 i0 i1\nout i2\nend",
        0,
        "-3\n-1\n-3\n1\n3\n-1\n3\n1\nend: done\n",
    ),
    (
        "",
        "fn main\nset i0 0\nset i1 1000001\nnewm r0 i0 i1\nret\nend",
        4,
        "end: trap size task 0 line 4\n",
    ),
    (
        "--chunks 976",
        "fn main\nset i0 0\nset i1 1000000\nnewm r0 i0 i1\nret\nend",
        7,
        "end: pool 0\n",
    ),
    (
        "",
        "fn main\nset i0 0\nset i1 1\nnewm r0 i0 i1\nfreeze r0\nputi r0 i0 i1\nret\nend",
        4,
        "end: trap frozen task 0 line 6\n",
    ),
    (
        "",
        "fn left\nfreeze r0\nret\nend\nfn right\nret\nend\nfn main\nset i0 1\nset i1 0\nnewm r0 i0 i1\npar left right\nret\nend",
        4,
        "end: trap frozen task 1 line 2\n",
    ),
    (
        "",
        "fn kid\nset i1 0\ngetr r1 r0 i1\ngeti i0 r1 i1\nret\nend\nfn main\nset i0 0\nset i1 1\nnewm r1 i0 i1\nset i2 9\nputi r1 i0 i2\nnewm r0 i1 i0\nputr r0 i0 r1\nfreeze r0\npar kid kid\nadd i0 i0 i1\nout i0\nret\nend",
        0,
        "18\nend: done\n",
    ),
    (
        "",
        "fn main\ncas i0 r0 i1 r2 r3\nend",
        4,
        "end: trap nil task 0 line 2\n",
    ),
    (
        "",
        "fn dbl\nadd i0 i0 i0\nret\nend\nfn main\nset i0 0\nset i1 0\npfor dbl\nout i0\nret\nend",
        0,
        "0\nend: done\n",
    ),
    (
        "",
        "fn main\nset i0 0\nset i1 8\nset i2 1\nset i3 1000\nlab top\nnewm r0 i0 i1\nsub i3 i3 i2\njz i3 done\njmp top\nlab done\nret\nend",
        0,
        "end: done\n",
    ),
    (
        "",
        "fn main\nset i0 300\nset i2 1\nlab n\njz i0 d\nsub i0 i0 i2\njmp n\nlab d\nout i0\nend",
        0,
        "0\nend: done\n",
    ),
    (
        "",
        "fn main\nset i0 -9223372036854775808\nset i1 -1\ndiv i2 i0 i1\nout i2\nrem i2 i0 i1\nout i2\nset i2 1\nsub i2 i0 i2\nout i2\nset i1 0\ndiv i2 i0 i1\nend",
        4,
        "-9223372036854775808\n0\n9223372036854775807\nend: trap div task 0 line 12\n",
    ),
    (
        "",
        "fn main\nout i0\ngeti i0 r0 i1\nend",
        4,
        "0\nend: trap nil task 0 line 3\n",
    ),
    ("", "fn main\nlab a\njmp a\nend", 6, "end: fuel 1000192\n"),
];

#[test]
fn plain_runs(rt: HostRuntime) {
    check_calls(&rt, "run", PLAIN);
}

// Runs with their traces: each entry that one worker makes.
const TRACED: &[Row] = &[
    (
        "--trace",
        "fn main\nset i0 7\nout i0\nret\nend",
        0,
        "7\ntrace 2\n0 took 0\n0 ran 0 2\n0 ran 0 1\nend: done\n",
    ),
    (
        "--trace",
        "fn left\nset i1 10\nadd i0 i1 i2\nret\nend\nfn right\nset i1 20\nadd i0 i1 i2\nret\nend\nfn main\nset i2 3\npar left right\nadd i0 i0 i1\nout i0\nret\nend",
        0,
        "36\ntrace 2\n0 took 0\n0 ran 0 2\n0 took 1\n0 ran 1 3\n0 took 2\n0 ran 2 3\n0 took 0\n0 ran 0 2\n0 ran 0 1\nend: done\n",
    ),
    (
        "--trace --report",
        "fn left\nset i0 0\nset i1 1\nnewm r1 i0 i1\nputr r0 i0 r1\nret\nend\nfn right\nset i0 0\ngetr r1 r0 i0\nret\nend\nfn main\nset i0 1\nset i1 0\nnewm r0 i0 i1\npar left right\nret\nend",
        5,
        "report tasks 3 steps 11 turns 11\nreport leaf 0 putoff 0 freed 0\nreport inner 0 freed 0\nreport chunks 2 peak 2\nreport held 2 words 6\ntrace 2\n0 took 0\n0 ran 0 2\n0 chunk 0\n0 ran 0 2\n0 took 1\n0 ran 1 2\n0 chunk 1\n0 ran 1 2\n0 ran 1 1\n0 took 2\n0 ran 2 2\nend: entangled reader 2 owner 1\n",
    ),
    (
        "--leaf 16 --trace --report",
        "fn main\nset i0 1\nset i1 13\nnewm r0 i0 i1\nset i2 0\nputr r0 i2 r0\nmovr r1 r0\nnewm r2 i0 i1\ngetr r3 r0 i2\nsame i3 r0 r1\nsame i4 r3 r1\nout i3\nout i4\nret\nend",
        0,
        "1\n1\nreport tasks 1 steps 13 turns 9\nreport leaf 1 putoff 0 freed 0\nreport inner 0 freed 0\nreport chunks 1 peak 2\nreport held 2 words 32\ntrace 2\n0 took 0\n0 ran 0 2\n0 chunk 0\n0 ran 0 4\n0 begin 0\n0 end 0 1 1 16\n0 ran 0 5\n0 ran 0 1\n0 ran 0 1\nend: done\n",
    ),
    (
        "--fuel 5 --trace",
        "fn main\nlab a\njmp a\nend",
        6,
        "trace 2\n0 took 0\n0 ran 0 256\n0 fuel\nend: fuel 256\n",
    ),
    (
        "--fuel 1 --trace",
        "fn main\nlab a\njmp a\nend",
        6,
        "trace 2\n0 took 0\n0 ran 0 256\n0 fuel\nend: fuel 256\n",
    ),
    (
        "--fuel 5 --trace",
        "fn main\nlab a\nout i0\njmp a\nend",
        6,
        "0\n0\n0\ntrace 2\n0 took 0\n0 ran 0 1\n0 ran 0 2\n0 ran 0 2\n0 fuel\nend: fuel 5\n",
    ),
    (
        "--chunks 2 --leaf 1000 --trace --report",
        "fn main\nset i0 1\nset i1 597\nlab top\nnewm r1 i0 i1\nset i2 0\nputr r1 i2 r0\nmovr r0 r1\njmp top\nend",
        7,
        "report tasks 1 steps 12 turns 8\nreport leaf 0 putoff 1 freed 0\nreport inner 0 freed 0\nreport chunks 2 peak 2\nreport held 0 words 0\ntrace 2\n0 took 0\n0 ran 0 2\n0 chunk 0\n0 ran 0 5\n0 chunk 0\n0 ran 0 5\n0 putoff 0\n0 chunk 0\nend: pool 2\n",
    ),
    (
        "--inner 16 --trace --report",
        "fn kid\nout i0\nret\nend\nfn main\nset i0 0\nset i1 1000\nnewm r0 i0 i1\nnil r0\nset i1 500\nnewm r1 i0 i1\npar kid kid\nret\nend",
        0,
        "0\n0\nreport tasks 3 steps 12 turns 17\nreport leaf 0 putoff 0 freed 0\nreport inner 1 freed 1002\nreport chunks 1 peak 2\nreport held 1 words 502\ntrace 2\n0 took 0\n0 ran 0 2\n0 chunk 0\n0 ran 0 3\n0 chunk 0\n0 ran 0 2\n0 mark 0\n0 took 1\n0 ran 1 1\n0 some 0 64\n0 ran 1 1\n0 sweep 0 1\n0 took 2\n0 ran 2 1\n0 ran 2 1\n0 took 0\n0 ran 0 1\nend: done\n",
    ),
    (
        "--trace",
        "fn main\ncall main\nend",
        4,
        "trace 2\n0 took 0\n0 ran 0 256\n0 ran 0 256\n0 ran 0 256\n0 ran 0 232\nend: trap depth task 0 line 2\n",
    ),
    (
        "--chunks 2 --trace",
        "fn main\nset i0 1\nset i1 597\nlab top\nnewm r1 i0 i1\nset i2 0\nputr r1 i2 r0\nmovr r0 r1\njmp top\nend",
        7,
        "trace 2\n0 took 0\n0 ran 0 2\n0 chunk 0\n0 ran 0 5\n0 chunk 0\n0 ran 0 5\n0 chunk 0\nend: pool 2\n",
    ),
    (
        "--chunks 2 --leaf 16 --trace --report",
        "fn main\nset i0 1\nset i1 13\nnewm r0 i0 i1\nset i2 0\nputr r0 i2 r0\nmovr r1 r0\nnewm r2 i0 i1\ngetr r3 r0 i2\nsame i3 r0 r1\nsame i4 r3 r1\nout i3\nout i4\nret\nend",
        0,
        "1\n1\nreport tasks 1 steps 13 turns 9\nreport leaf 1 putoff 0 freed 0\nreport inner 0 freed 0\nreport chunks 1 peak 2\nreport held 2 words 32\ntrace 2\n0 took 0\n0 ran 0 2\n0 chunk 0\n0 ran 0 4\n0 begin 0\n0 end 0 1 1 16\n0 ran 0 5\n0 ran 0 1\n0 ran 0 1\nend: done\n",
    ),
    (
        "--leaf 2007 --trace --report",
        "fn main\nset i0 1\nset i1 2000\nnewm r0 i0 i1\nset i1 1\nnewm r1 i0 i1\nset i2 0\nputr r0 i2 r1\nnil r1\nnewm r1 i0 i1\nret\nend",
        0,
        "report tasks 1 steps 10 turns 9\nreport leaf 1 putoff 0 freed 0\nreport inner 0 freed 0\nreport chunks 3 peak 4\nreport held 3 words 2011\ntrace 2\n0 took 0\n0 ran 0 2\n0 chunk 0\n0 ran 0 2\n0 chunk 0\n0 ran 0 4\n0 begin 0\n0 end 0 1 1 2007\n0 ran 0 2\nend: done\n",
    ),
    (
        "--trace",
        "fn left\nset i0 0\nset i1 1\nnewm r1 i0 i1\nset i2 42\nputi r1 i0 i2\nputr r0 i0 r1\ngetr r2 r0 i0\ngeti i0 r2 i0\nret\nend\nfn right\nset i0 0\nret\nend\nfn main\nset i0 1\nset i1 0\nnewm r0 i0 i1\npar left right\nout i0\nret\nend",
        0,
        "42\ntrace 2\n0 took 0\n0 ran 0 2\n0 chunk 0\n0 ran 0 2\n0 took 1\n0 ran 1 2\n0 chunk 1\n0 ran 1 4\n0 ran 1 1\n0 ran 1 2\n0 took 2\n0 ran 2 2\n0 took 0\n0 ran 0 1\n0 ran 0 1\nend: done\n",
    ),
];

#[test]
fn traced_runs(rt: HostRuntime) {
    check_calls(&rt, "run", TRACED);
}

// Two tasks compare and swap one field from nil, each to its own object; the sum of both results, and the left one's
// result.
const SWAPS: &str =
    "fn left\nset i0 0\nset i1 1\nnewm r1 i0 i1\nnil r2\ncas i0 r0 i0 r2 r1\nret\nend\nfn right\nset i0 0\nset i1 1\nnewm r1 i0 i1\nnil r2\ncas i0 r0 i0 r2 r1\nret\nend\nfn main\nset i0 1\nset i1 0\nnewm r0 i0 i1\npar left right\nadd i2 i0 i1\nout i2\nout i0\nret\nend";

// Whether one of two tasks wins, whichever it is.
fn one_wins<R: AllocGlobal + Threads + Wait + Sync>(rt: &R) -> bool {
    let mut sink = sink_of(rt.alloc());
    let code = status_with(rt, ("run", "--workers 2"), SWAPS.as_bytes(), &mut sink);
    let written = sink.written();
    code == Some(0)
        && (written == b"1\n1\nend: done\n".as_slice()
            || written == b"1\n0\nend: done\n".as_slice())
}

#[test]
fn one_of_two_swaps_wins(rt: HostRuntime) {
    assert!(rt; one_wins(&rt));
}
