// Reads of ancestors' objects: immutable ones without the turn, and others with it.

use crate::calls::{Row, check_calls};

// Runs with their reports and journals. A packed object is read twice in one entry, before and during a sweep of its
// heap; a task reads the root's object, its parent's and its own in one entry; the reader itself reuses the number of a
// swept chunk; counts, a reference and a frozen object are read. A read of a mutable object, and one that fails, end
// their entries.
const RUNS: &[Row] = &[
    (
        "--trace --report",
        "fn left\nset i1 0\ngeti i0 r0 i1\ngeti i2 r0 i1\nadd i0 i0 i2\nret\nend\nfn right\nret\nend\nfn main\nset i0 7\npack r0 0 1\npar left right\nout i0\nret\nend",
        0,
        "14\nreport tasks 3 steps 11 turns 11\nreport leaf 0 putoff 0 freed 0\nreport inner 0 freed 0\nreport chunks 1 peak 1\nreport held 1 words 3\ntrace 2\n0 took 0\n0 ran 0 1\n0 chunk 0\n0 ran 0 2\n0 took 1\n0 ran 1 5\n0 took 2\n0 ran 2 1\n0 took 0\n0 ran 0 1\n0 ran 0 1\nend: done\n",
    ),
    (
        "--inner 16 --trace --report",
        "fn left\nset i1 0\ngeti i0 r0 i1\ngeti i2 r0 i1\nadd i0 i0 i2\nret\nend\nfn right\nout i0\nset i1 0\ngeti i0 r0 i1\nout i0\nret\nend\nfn main\nset i0 7\npack r0 0 16\nnil r0\npack r0 0 16\npar left right\nout i0\nret\nend",
        0,
        "7\n7\n14\nreport tasks 3 steps 17 turns 16\nreport leaf 0 putoff 0 freed 0\nreport inner 1 freed 18\nreport chunks 1 peak 1\nreport held 1 words 18\ntrace 2\n0 took 0\n0 ran 0 1\n0 chunk 0\n0 ran 0 4\n0 mark 0\n0 took 1\n0 ran 1 5\n0 some 0 64\n0 took 2\n0 ran 2 1\n0 sweep 0 0\n0 ran 2 3\n0 ran 2 1\n0 took 0\n0 ran 0 1\n0 ran 0 1\nend: done\n",
    ),
    (
        "--trace --report",
        "fn nop\nret\nend\nfn low\nset i0 4\npack r3 0 1\nset i1 0\ngeti i2 r1 i1\ngeti i3 r2 i1\ngeti i4 r3 i1\nadd i0 i2 i3\nadd i0 i0 i4\nret\nend\nfn mid\nset i0 2\npack r2 0 1\npar low nop\nret\nend\nfn main\nset i0 1\npack r1 0 1\npar mid nop\nout i0\nret\nend",
        0,
        "7\nreport tasks 5 steps 20 turns 21\nreport leaf 0 putoff 0 freed 0\nreport inner 0 freed 0\nreport chunks 3 peak 3\nreport held 3 words 9\ntrace 2\n0 took 0\n0 ran 0 1\n0 chunk 0\n0 ran 0 2\n0 took 1\n0 ran 1 1\n0 chunk 1\n0 ran 1 2\n0 took 3\n0 ran 3 1\n0 chunk 3\n0 ran 3 8\n0 took 4\n0 ran 4 1\n0 took 1\n0 ran 1 1\n0 took 2\n0 ran 2 1\n0 took 0\n0 ran 0 1\n0 ran 0 1\nend: done\n",
    ),
    (
        "--inner 16 --trace --report",
        "fn left\nret\nend\nfn right\nout i0\nset i0 9\npack r2 0 1\nset i1 0\ngeti i3 r2 i1\ngeti i4 r0 i1\nadd i0 i3 i4\nret\nend\nfn main\nset i2 0\nset i1 1022\nnewm r1 i2 i1\nfreeze r1\nnil r1\nset i0 7\npack r0 0 1\npar left right\nout i1\nret\nend",
        0,
        "7\n16\nreport tasks 3 steps 19 turns 19\nreport leaf 0 putoff 0 freed 0\nreport inner 1 freed 1024\nreport chunks 2 peak 2\nreport held 2 words 6\ntrace 2\n0 took 0\n0 ran 0 2\n0 chunk 0\n0 ran 0 4\n0 chunk 0\n0 ran 0 2\n0 mark 0\n0 took 1\n0 ran 1 1\n0 some 0 64\n0 took 2\n0 ran 2 1\n0 sweep 0 1\n0 ran 2 1\n0 chunk 2\n0 ran 2 6\n0 took 0\n0 ran 0 1\n0 ran 0 1\nend: done\n",
    ),
    (
        "--trace --report",
        "fn left\ncntr i0 r0\ncnti i2 r0\nadd i0 i0 i2\nret\nend\nfn right\nret\nend\nfn main\nset i0 7\npack r0 1 2\npar left right\nout i0\nret\nend",
        0,
        "3\nreport tasks 3 steps 10 turns 11\nreport leaf 0 putoff 0 freed 0\nreport inner 0 freed 0\nreport chunks 1 peak 1\nreport held 1 words 5\ntrace 2\n0 took 0\n0 ran 0 1\n0 chunk 0\n0 ran 0 2\n0 took 1\n0 ran 1 4\n0 took 2\n0 ran 2 1\n0 took 0\n0 ran 0 1\n0 ran 0 1\nend: done\n",
    ),
    (
        "--trace --report",
        "fn left\nset i1 0\ngetr r2 r0 i1\ngeti i0 r2 i1\nret\nend\nfn right\nret\nend\nfn main\nset i0 7\npack r0 0 1\npack r0 1 0\npar left right\nout i0\nret\nend",
        0,
        "7\nreport tasks 3 steps 11 turns 11\nreport leaf 0 putoff 0 freed 0\nreport inner 0 freed 0\nreport chunks 1 peak 1\nreport held 2 words 6\ntrace 2\n0 took 0\n0 ran 0 1\n0 chunk 0\n0 ran 0 3\n0 took 1\n0 ran 1 4\n0 took 2\n0 ran 2 1\n0 took 0\n0 ran 0 1\n0 ran 0 1\nend: done\n",
    ),
    (
        "--trace --report",
        "fn left\nset i1 0\ngeti i0 r0 i1\ngeti i2 r0 i1\nadd i0 i0 i2\nret\nend\nfn right\nret\nend\nfn main\nset i0 0\nset i1 1\nnewm r0 i0 i1\nset i2 7\nputi r0 i0 i2\nfreeze r0\npar left right\nout i0\nret\nend",
        0,
        "14\nreport tasks 3 steps 15 turns 11\nreport leaf 0 putoff 0 freed 0\nreport inner 0 freed 0\nreport chunks 1 peak 1\nreport held 1 words 3\ntrace 2\n0 took 0\n0 ran 0 2\n0 chunk 0\n0 ran 0 5\n0 took 1\n0 ran 1 5\n0 took 2\n0 ran 2 1\n0 took 0\n0 ran 0 1\n0 ran 0 1\nend: done\n",
    ),
    (
        "--trace --report",
        "fn left\nset i1 0\ngeti i0 r0 i1\ngeti i2 r0 i1\nadd i0 i0 i2\nret\nend\nfn right\nret\nend\nfn main\nset i0 0\nset i1 1\nnewm r0 i0 i1\npar left right\nout i0\nret\nend",
        0,
        "0\nreport tasks 3 steps 12 turns 13\nreport leaf 0 putoff 0 freed 0\nreport inner 0 freed 0\nreport chunks 1 peak 1\nreport held 1 words 3\ntrace 2\n0 took 0\n0 ran 0 2\n0 chunk 0\n0 ran 0 2\n0 took 1\n0 ran 1 2\n0 ran 1 1\n0 ran 1 2\n0 took 2\n0 ran 2 1\n0 took 0\n0 ran 0 1\n0 ran 0 1\nend: done\n",
    ),
    (
        "--trace --report",
        "fn left\nset i1 1\ngeti i0 r0 i1\nret\nend\nfn right\nret\nend\nfn main\nset i0 7\npack r0 0 1\npar left right\nret\nend",
        4,
        "report tasks 3 steps 5 turns 6\nreport leaf 0 putoff 0 freed 0\nreport inner 0 freed 0\nreport chunks 1 peak 1\nreport held 1 words 3\ntrace 2\n0 took 0\n0 ran 0 1\n0 chunk 0\n0 ran 0 2\n0 took 1\n0 ran 1 2\nend: trap range task 1 line 3\n",
    ),
];

#[test]
fn immutable_objects_above_are_read(rt: HostRuntime) {
    check_calls(&rt, "run", RUNS);
}

// The same by two workers.
const SHARED: &[Row] = &[
    (
        "--workers 2",
        "fn left\nset i1 0\ngeti i0 r0 i1\ngeti i2 r0 i1\nadd i0 i0 i2\nret\nend\nfn right\nret\nend\nfn main\nset i0 7\npack r0 0 1\npar left right\nout i0\nret\nend",
        0,
        "14\nend: done\n",
    ),
    (
        "--workers 2",
        "fn nop\nret\nend\nfn low\nset i0 4\npack r3 0 1\nset i1 0\ngeti i2 r1 i1\ngeti i3 r2 i1\ngeti i4 r3 i1\nadd i0 i2 i3\nadd i0 i0 i4\nret\nend\nfn mid\nset i0 2\npack r2 0 1\npar low nop\nret\nend\nfn main\nset i0 1\npack r1 0 1\npar mid nop\nout i0\nret\nend",
        0,
        "7\nend: done\n",
    ),
    (
        "--workers 2",
        "fn left\nset i1 0\ngetr r2 r0 i1\ngeti i0 r2 i1\nret\nend\nfn right\nret\nend\nfn main\nset i0 7\npack r0 0 1\npack r0 1 0\npar left right\nout i0\nret\nend",
        0,
        "7\nend: done\n",
    ),
    (
        "--workers 2",
        "fn left\nset i1 0\ngeti i0 r0 i1\ngeti i2 r0 i1\nadd i0 i0 i2\nret\nend\nfn right\nret\nend\nfn main\nset i0 0\nset i1 1\nnewm r0 i0 i1\nset i2 7\nputi r0 i0 i2\nfreeze r0\npar left right\nout i0\nret\nend",
        0,
        "14\nend: done\n",
    ),
];

#[test]
fn workers_read_what_is_above(rt: HostRuntime) {
    check_calls(&rt, "run", SHARED);
}

// The journals again, and one whose entries end at each such read.
const REPLAYED: &[Row] = &[
    (
        "--report",
        "fn left\nset i1 0\ngeti i0 r0 i1\ngeti i2 r0 i1\nadd i0 i0 i2\nret\nend\nfn right\nret\nend\nfn main\nset i0 7\npack r0 0 1\npar left right\nout i0\nret\nend\ntrace 2\n0 took 0\n0 ran 0 1\n0 chunk 0\n0 ran 0 2\n0 took 1\n0 ran 1 5\n0 took 2\n0 ran 2 1\n0 took 0\n0 ran 0 1\n0 ran 0 1\n",
        0,
        "14\nreport tasks 3 steps 11 turns 11\nreport leaf 0 putoff 0 freed 0\nreport inner 0 freed 0\nreport chunks 1 peak 1\nreport held 1 words 3\nend: done\n",
    ),
    (
        "--inner 16 --report",
        "fn left\nset i1 0\ngeti i0 r0 i1\ngeti i2 r0 i1\nadd i0 i0 i2\nret\nend\nfn right\nout i0\nset i1 0\ngeti i0 r0 i1\nout i0\nret\nend\nfn main\nset i0 7\npack r0 0 16\nnil r0\npack r0 0 16\npar left right\nout i0\nret\nend\ntrace 2\n0 took 0\n0 ran 0 1\n0 chunk 0\n0 ran 0 4\n0 mark 0\n0 took 1\n0 ran 1 5\n0 some 0 64\n0 took 2\n0 ran 2 1\n0 sweep 0 0\n0 ran 2 3\n0 ran 2 1\n0 took 0\n0 ran 0 1\n0 ran 0 1\n",
        0,
        "7\n7\n14\nreport tasks 3 steps 17 turns 16\nreport leaf 0 putoff 0 freed 0\nreport inner 1 freed 18\nreport chunks 1 peak 1\nreport held 1 words 18\nend: done\n",
    ),
    (
        "--report",
        "fn nop\nret\nend\nfn low\nset i0 4\npack r3 0 1\nset i1 0\ngeti i2 r1 i1\ngeti i3 r2 i1\ngeti i4 r3 i1\nadd i0 i2 i3\nadd i0 i0 i4\nret\nend\nfn mid\nset i0 2\npack r2 0 1\npar low nop\nret\nend\nfn main\nset i0 1\npack r1 0 1\npar mid nop\nout i0\nret\nend\ntrace 2\n0 took 0\n0 ran 0 1\n0 chunk 0\n0 ran 0 2\n0 took 1\n0 ran 1 1\n0 chunk 1\n0 ran 1 2\n0 took 3\n0 ran 3 1\n0 chunk 3\n0 ran 3 8\n0 took 4\n0 ran 4 1\n0 took 1\n0 ran 1 1\n0 took 2\n0 ran 2 1\n0 took 0\n0 ran 0 1\n0 ran 0 1\n",
        0,
        "7\nreport tasks 5 steps 20 turns 21\nreport leaf 0 putoff 0 freed 0\nreport inner 0 freed 0\nreport chunks 3 peak 3\nreport held 3 words 9\nend: done\n",
    ),
    (
        "--inner 16 --report",
        "fn left\nret\nend\nfn right\nout i0\nset i0 9\npack r2 0 1\nset i1 0\ngeti i3 r2 i1\ngeti i4 r0 i1\nadd i0 i3 i4\nret\nend\nfn main\nset i2 0\nset i1 1022\nnewm r1 i2 i1\nfreeze r1\nnil r1\nset i0 7\npack r0 0 1\npar left right\nout i1\nret\nend\ntrace 2\n0 took 0\n0 ran 0 2\n0 chunk 0\n0 ran 0 4\n0 chunk 0\n0 ran 0 2\n0 mark 0\n0 took 1\n0 ran 1 1\n0 some 0 64\n0 took 2\n0 ran 2 1\n0 sweep 0 1\n0 ran 2 1\n0 chunk 2\n0 ran 2 6\n0 took 0\n0 ran 0 1\n0 ran 0 1\n",
        0,
        "7\n16\nreport tasks 3 steps 19 turns 19\nreport leaf 0 putoff 0 freed 0\nreport inner 1 freed 1024\nreport chunks 2 peak 2\nreport held 2 words 6\nend: done\n",
    ),
    (
        "--report",
        "fn left\ncntr i0 r0\ncnti i2 r0\nadd i0 i0 i2\nret\nend\nfn right\nret\nend\nfn main\nset i0 7\npack r0 1 2\npar left right\nout i0\nret\nend\ntrace 2\n0 took 0\n0 ran 0 1\n0 chunk 0\n0 ran 0 2\n0 took 1\n0 ran 1 4\n0 took 2\n0 ran 2 1\n0 took 0\n0 ran 0 1\n0 ran 0 1\n",
        0,
        "3\nreport tasks 3 steps 10 turns 11\nreport leaf 0 putoff 0 freed 0\nreport inner 0 freed 0\nreport chunks 1 peak 1\nreport held 1 words 5\nend: done\n",
    ),
    (
        "--report",
        "fn left\nset i1 0\ngetr r2 r0 i1\ngeti i0 r2 i1\nret\nend\nfn right\nret\nend\nfn main\nset i0 7\npack r0 0 1\npack r0 1 0\npar left right\nout i0\nret\nend\ntrace 2\n0 took 0\n0 ran 0 1\n0 chunk 0\n0 ran 0 3\n0 took 1\n0 ran 1 4\n0 took 2\n0 ran 2 1\n0 took 0\n0 ran 0 1\n0 ran 0 1\n",
        0,
        "7\nreport tasks 3 steps 11 turns 11\nreport leaf 0 putoff 0 freed 0\nreport inner 0 freed 0\nreport chunks 1 peak 1\nreport held 2 words 6\nend: done\n",
    ),
    (
        "--report",
        "fn left\nset i1 0\ngeti i0 r0 i1\ngeti i2 r0 i1\nadd i0 i0 i2\nret\nend\nfn right\nret\nend\nfn main\nset i0 0\nset i1 1\nnewm r0 i0 i1\nset i2 7\nputi r0 i0 i2\nfreeze r0\npar left right\nout i0\nret\nend\ntrace 2\n0 took 0\n0 ran 0 2\n0 chunk 0\n0 ran 0 5\n0 took 1\n0 ran 1 5\n0 took 2\n0 ran 2 1\n0 took 0\n0 ran 0 1\n0 ran 0 1\n",
        0,
        "14\nreport tasks 3 steps 15 turns 11\nreport leaf 0 putoff 0 freed 0\nreport inner 0 freed 0\nreport chunks 1 peak 1\nreport held 1 words 3\nend: done\n",
    ),
    (
        "--report",
        "fn left\nset i1 0\ngeti i0 r0 i1\ngeti i2 r0 i1\nadd i0 i0 i2\nret\nend\nfn right\nret\nend\nfn main\nset i0 0\nset i1 1\nnewm r0 i0 i1\npar left right\nout i0\nret\nend\ntrace 2\n0 took 0\n0 ran 0 2\n0 chunk 0\n0 ran 0 2\n0 took 1\n0 ran 1 2\n0 ran 1 1\n0 ran 1 2\n0 took 2\n0 ran 2 1\n0 took 0\n0 ran 0 1\n0 ran 0 1\n",
        0,
        "0\nreport tasks 3 steps 12 turns 13\nreport leaf 0 putoff 0 freed 0\nreport inner 0 freed 0\nreport chunks 1 peak 1\nreport held 1 words 3\nend: done\n",
    ),
    (
        "--report",
        "fn left\nset i1 1\ngeti i0 r0 i1\nret\nend\nfn right\nret\nend\nfn main\nset i0 7\npack r0 0 1\npar left right\nret\nend\ntrace 2\n0 took 0\n0 ran 0 1\n0 chunk 0\n0 ran 0 2\n0 took 1\n0 ran 1 2\n",
        4,
        "report tasks 3 steps 5 turns 6\nreport leaf 0 putoff 0 freed 0\nreport inner 0 freed 0\nreport chunks 1 peak 1\nreport held 1 words 3\nend: trap range task 1 line 3\n",
    ),
    (
        "--report",
        "fn left\nset i1 0\ngeti i0 r0 i1\ngeti i2 r0 i1\nadd i0 i0 i2\nret\nend\nfn right\nret\nend\nfn main\nset i0 7\npack r0 0 1\npar left right\nout i0\nret\nend\ntrace 1\n0 took 0\n0 ran 0 1\n0 chunk 0\n0 ran 0 2\n0 took 1\n0 ran 1 2\n0 ran 1 1\n0 ran 1 2\n0 took 2\n0 ran 2 1\n0 took 0\n0 ran 0 1\n0 ran 0 1\n",
        0,
        "14\nreport tasks 3 steps 11 turns 13\nreport leaf 0 putoff 0 freed 0\nreport inner 0 freed 0\nreport chunks 1 peak 1\nreport held 1 words 3\nend: done\n",
    ),
    (
        "--report",
        "fn left\nset i1 0\ngeti i0 r0 i1\ngeti i2 r0 i1\nadd i0 i0 i2\nret\nend\nfn right\nret\nend\nfn main\nset i0 7\npack r0 0 1\npar left right\nout i0\nret\nend\ntrace 2\n0 took 0\n0 ran 0 1\n0 chunk 0\n0 ran 0 2\n0 took 1\n0 ran 1 2\n0 ran 1 1\n0 ran 1 2\n0 took 2\n0 ran 2 1\n0 took 0\n0 ran 0 1\n0 ran 0 1\n",
        0,
        "14\nreport tasks 3 steps 11 turns 13\nreport leaf 0 putoff 0 freed 0\nreport inner 0 freed 0\nreport chunks 1 peak 1\nreport held 1 words 3\nend: done\n",
    ),
];

#[test]
fn such_journals_are_replayed(rt: HostRuntime) {
    check_calls(&rt, "replay", REPLAYED);
    check_calls(&rt, "model", REPLAYED);
}

// A read of a mutable object of another task during an entry, in both versions.
const REFUSED: &[Row] = &[
    (
        "",
        "fn left\nset i1 0\ngeti i0 r0 i1\ngeti i2 r0 i1\nadd i0 i0 i2\nret\nend\nfn right\nret\nend\nfn main\nset i0 0\nset i1 1\nnewm r0 i0 i1\npar left right\nout i0\nret\nend\ntrace 1\n0 took 0\n0 ran 0 2\n0 chunk 0\n0 ran 0 2\n0 took 1\n0 ran 1 5\n",
        11,
        "end: trace refused entry 6 long 2\n",
    ),
    (
        "",
        "fn left\nset i1 0\ngeti i0 r0 i1\ngeti i2 r0 i1\nadd i0 i0 i2\nret\nend\nfn right\nret\nend\nfn main\nset i0 0\nset i1 1\nnewm r0 i0 i1\npar left right\nout i0\nret\nend\ntrace 2\n0 took 0\n0 ran 0 2\n0 chunk 0\n0 ran 0 2\n0 took 1\n0 ran 1 5\n",
        11,
        "end: trace refused entry 6 long 2\n",
    ),
];

#[test]
fn mutable_objects_are_read_in_turn(rt: HostRuntime) {
    check_calls(&rt, "replay", REFUSED);
    check_calls(&rt, "model", REFUSED);
}
