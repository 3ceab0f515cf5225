// What is written of runs.

use crate::programs::{
    LARGE, LARGE_AND_SMALL, LISTS, Limits, SWEEPS, TWO_OBJECTS, joined, read, settings,
};
use run_report::{Extras, whole_run};
use std::alloc::Global;
use trace_input::TraceInput;

const PUT_OFF: &str =
    "trace 1\n0 took 0\n0 ran 0 2\n0 chunk 0\n0 ran 0 5\n0 chunk 0\n0 ran 0 5\n0 putoff 0\n0 chunk 0\n";

const COLLECTED: &str =
    "trace 1\n0 took 0\n0 ran 0 2\n0 chunk 0\n0 ran 0 5\n0 chunk 0\n0 ran 0 5\n0 begin 0\n0 end 0 2 3 1200\n0 chunk 0\n0 ran 0 5\n0 chunk 0\n0 ran 0 5\n0 putoff 0\n0 chunk 0\n0 ran 0 5\n0 chunk 0\n";

// SWEEPS, up to where its heap may be marked, and from there to its end.
const TO_SWEEP: &str = "trace 1\n0 took 0\n0 ran 0 2\n0 chunk 0\n0 ran 0 3\n0 chunk 0\n0 ran 0 2\n";

const SWEPT: &str =
    "0 mark 0\n0 took 1\n0 ran 1 1\n0 some 0 64\n0 ran 1 1\n0 sweep 0 1\n0 took 2\n0 ran 2 1\n0 ran 2 1\n0 took 0\n0 ran 0 1\n";

/// A run and what is written of it.
pub(crate) struct Run {
    pub(crate) limits: Limits,
    pub(crate) program: &'static str,
    pub(crate) journal: &'static [&'static str],
    pub(crate) shows_report: bool,
    pub(crate) shows_trace: bool,
    /// What is written, in parts.
    pub(crate) text: &'static [&'static str],
}

// Whether a text is exactly these parts.
fn has_parts(alloc: Global, text: &[u8], parts: &[&str]) -> bool {
    match joined(alloc, "", parts) {
        Some(whole) => text == whole.as_bytes(),
        None => false,
    }
}

// Whether the expected text is written of a run that was read.
fn writes(alloc: Global, read: &TraceInput, run: &Run) -> bool {
    let settings = settings(run.limits).with_version(read.trace.version);
    let entries = read.trace.entries.as_slice();
    let extras = Extras {
        report: run.shows_report,
        trace: run.shows_trace,
    };
    match whole_run(alloc, &read.program, settings, entries, extras) {
        Ok(written) => has_parts(alloc, written.text.as_slice(), run.text),
        Err(_) => false,
    }
}

/// Whether the expected text is written of a run.
pub(crate) fn is_written(alloc: Global, run: &Run) -> bool {
    match read(alloc, run.program, run.journal) {
        Some(read) => writes(alloc, &read, run),
        None => false,
    }
}

const ONE_LARGE: &str = "trace 2\n0 took 0\n0 ran 0 2\n0 chunk 0\n0 ran 0 2\n";

const LARGE_THEN_SMALL: &str =
    "trace 2\n0 took 0\n0 ran 0 2\n0 chunk 0\n0 ran 0 2\n0 chunk 0\n0 ran 0 4\n0 begin 0\n0 end 0 1 1 2007\n0 ran 0 2\n";

const WHOLE: &[Run] = &[
    Run {
        limits: (1, 1_000_000, 4096, 4096, 8192),
        program: LARGE,
        journal: &[ONE_LARGE],
        shows_report: true,
        shows_trace: false,
        text: &[
            "report tasks 1 steps 4 turns 4\nreport leaf 0 putoff 0 freed 0\nreport inner 0 freed 0\nreport chunks 2 peak 2\nreport held 1 words 1025\n",
            "end: done\n",
        ],
    },
    Run {
        limits: (1, 1_000_000, 4096, 2007, 8192),
        program: LARGE_AND_SMALL,
        journal: &[LARGE_THEN_SMALL],
        shows_report: true,
        shows_trace: true,
        text: &[
            "report tasks 1 steps 10 turns 9\nreport leaf 1 putoff 0 freed 0\nreport inner 0 freed 0\nreport chunks 3 peak 4\nreport held 3 words 2011\n",
            LARGE_THEN_SMALL,
            "end: done\n",
        ],
    },
];

#[test]
fn runs_are_written_whole(rt: HostRuntime) {
    for run in WHOLE {
        assert!(rt; is_written(rt.alloc(), run), "{}", run.program);
    }
}

const TWO_HELD: &str =
    "trace 1\n0 took 0\n0 ran 0 2\n0 chunk 0\n0 ran 0 4\n0 begin 0\n0 end 0 1 1 16\n0 ran 0 5\n0 ran 0 1\n0 ran 0 1\n";

const INNER: Limits = (1, 1_000_000, 4096, 4096, 16);

const COUNTED: &[Run] = &[
    Run {
        limits: (2, 1_000_000, 4096, 16, 8192),
        program: TWO_OBJECTS,
        journal: &[TWO_HELD],
        shows_report: true,
        shows_trace: true,
        text: &[
            "1\n1\nreport tasks 1 steps 13 turns 9\nreport leaf 1 putoff 0 freed 0\nreport inner 0 freed 0\nreport chunks 1 peak 2\nreport held 2 words 32\n",
            TWO_HELD,
            "end: done\n",
        ],
    },
    Run {
        limits: INNER,
        program: SWEEPS,
        journal: &[TO_SWEEP, SWEPT],
        shows_report: true,
        shows_trace: true,
        text: &[
            "0\n0\nreport tasks 3 steps 12 turns 17\nreport leaf 0 putoff 0 freed 0\nreport inner 1 freed 1002\nreport chunks 1 peak 2\nreport held 1 words 502\n",
            TO_SWEEP,
            SWEPT,
            "end: done\n",
        ],
    },
];

#[test]
fn collections_are_counted(rt: HostRuntime) {
    for run in COUNTED {
        assert!(rt; is_written(rt.alloc(), run), "{}", run.program);
    }
}

// Whether this is written of a journal that was read, with the report and without the trace, if it is that of a whole
// run.
fn writes_report(alloc: Global, read: &TraceInput, limits: Limits, text: &str) -> bool {
    let (settings, entries) = (settings(limits), read.trace.entries.as_slice());
    let extras = Extras {
        report: true,
        trace: false,
    };
    match whole_run(alloc, &read.program, settings, entries, extras) {
        Ok(written) => written.text.as_slice() == text.as_bytes(),
        Err(_) => false,
    }
}

// The most chunks, the journal, and what is written.
type Pool = (u32, &'static str, &'static str);

// Whether the expected text is written.
fn runs_out(alloc: Global, (chunks, journal, text): Pool) -> bool {
    let limits = (1, 1_000_000, chunks, 1000, 8192);
    match read(alloc, LISTS, &[journal]) {
        Some(read) => writes_report(alloc, &read, limits, text),
        None => false,
    }
}

const POOLS: &[Pool] = &[
    (
        2,
        PUT_OFF,
        "report tasks 1 steps 12 turns 8\nreport leaf 0 putoff 1 freed 0\nreport inner 0 freed 0\nreport chunks 2 peak 2\nreport held 0 words 0\nend: pool 2\n",
    ),
    (
        5,
        COLLECTED,
        "report tasks 1 steps 27 turns 16\nreport leaf 1 putoff 1 freed 0\nreport inner 0 freed 0\nreport chunks 5 peak 5\nreport held 0 words 0\nend: pool 5\n",
    ),
];

#[test]
fn pools_run_out(rt: HostRuntime) {
    for &pool in POOLS {
        assert!(rt; runs_out(rt.alloc(), pool), "{}", pool.2);
    }
}
