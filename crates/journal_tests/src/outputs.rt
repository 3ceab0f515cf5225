// What is written of runs without the report: outputs, the trace, and the end line.

use crate::reports::{Run, is_written};

// Both children add 3 to their own number, and the parent adds these.
const ADDS: &str =
    "fn left\nset i1 10\nadd i0 i1 i2\nret\nend\nfn right\nset i1 20\nadd i0 i1 i2\nret\nend\nfn main\nset i2 3\npar left right\nadd i0 i0 i1\nout i0\nret\nend\n";

const TURNS: &str = "fn main\nlab a\njmp a\nend\n";

const COUNTS: &str = "fn main\nlab a\nout i0\njmp a\nend\n";

const DEEPENS: &str = "fn main\ncall main\nend\n";

// Both children try to put their own object into the parent's, which holds nil.
const SWAPS: &str =
    "fn left\nset i0 0\nset i1 1\nnewm r1 i0 i1\nnil r2\ncas i0 r0 i0 r2 r1\nret\nend\nfn right\nset i0 0\nset i1 1\nnewm r1 i0 i1\nnil r2\ncas i0 r0 i0 r2 r1\nret\nend\nfn main\nset i0 1\nset i1 0\nnewm r0 i0 i1\npar left right\nadd i2 i0 i1\nout i2\nout i0\nret\nend\n";

const ADDED: &str =
    "trace 2\n0 took 0\n0 ran 0 2\n0 took 1\n0 ran 1 3\n0 took 2\n0 ran 2 3\n0 took 0\n0 ran 0 2\n0 ran 0 1\n";

const TURNED: &str = "trace 2\n0 took 0\n0 ran 0 256\n0 fuel\n";

const COUNTED: &str = "trace 2\n0 took 0\n0 ran 0 1\n0 ran 0 2\n0 ran 0 2\n0 fuel\n";

const DEEPENED: &str = "trace 2\n0 took 0\n0 ran 0 256\n0 ran 0 256\n0 ran 0 256\n0 ran 0 232\n";

const SWAPPED: &str =
    "trace 2\n0 took 0\n0 ran 0 2\n0 chunk 0\n0 ran 0 2\n0 took 2\n0 ran 2 2\n0 chunk 2\n0 ran 2 3\n0 ran 2 1\n0 took 1\n0 ran 1 2\n0 chunk 1\n0 ran 1 3\n0 ran 1 1\n0 took 0\n0 ran 0 2\n0 ran 0 1\n0 ran 0 1\n";

const RUNS: &[Run] = &[
    Run {
        limits: (1, 1_000_000, 4096, 4096, 8192),
        program: ADDS,
        journal: &[ADDED],
        shows_report: false,
        shows_trace: true,
        text: &["36\n", ADDED, "end: done\n"],
    },
    Run {
        limits: (1, 5, 4096, 4096, 8192),
        program: TURNS,
        journal: &[TURNED],
        shows_report: false,
        shows_trace: true,
        text: &[TURNED, "end: fuel 256\n"],
    },
    Run {
        limits: (1, 5, 4096, 4096, 8192),
        program: COUNTS,
        journal: &[COUNTED],
        shows_report: false,
        shows_trace: true,
        text: &["0\n0\n0\n", COUNTED, "end: fuel 5\n"],
    },
    Run {
        limits: (1, 1_000_000, 4096, 4096, 8192),
        program: DEEPENS,
        journal: &[DEEPENED],
        shows_report: false,
        shows_trace: true,
        text: &[DEEPENED, "end: trap depth task 0 line 2\n"],
    },
    Run {
        limits: (1, 1_000_000, 4096, 4096, 8192),
        program: SWAPS,
        journal: &[SWAPPED],
        shows_report: false,
        shows_trace: true,
        text: &["1\n0\n", SWAPPED, "end: done\n"],
    },
];

#[test]
fn outputs_come_before_the_trace(rt: HostRuntime) {
    for run in RUNS {
        assert!(rt; is_written(rt.alloc(), run), "{}", run.program);
    }
}
