// Replayed journals: how they end, and why their entries are refused.

use crate::programs::{COLLECTS, Limits, MARKS, PRINTS, TO_BEGIN, TO_FORK, TOOK, read, settings};
use run_journal::{OrNoMemory, RefusedAt, RunEnd, model_replay};
use run_report::{end_text, refused_text};
use std::alloc::Global;
use trace_input::TraceInput;

/// A run's limits, its program, the parts of its journal, and the last line of the replay.
pub(crate) type Case = (Limits, &'static str, &'static [&'static str], &'static str);

// The last line of a replay with this result.
fn last_line(alloc: Global, end: Result<RunEnd, OrNoMemory<RefusedAt>>) -> Option<String> {
    match end {
        Ok(end) => end_text(alloc, end).ok(),
        Err(OrNoMemory::Refused(refused)) => refused_text(alloc, refused).ok(),
        Err(OrNoMemory::NoMemory) => None,
    }
}

// Whether this is the last line of the replay of a journal that was read.
fn ends_with(alloc: Global, read: &TraceInput, limits: Limits, line: &str) -> bool {
    let entries = read.trace.entries.as_slice();
    let end = model_replay(alloc, &read.program, settings(limits), entries);
    match last_line(alloc, end) {
        Some(text) => text.as_str() == line,
        None => false,
    }
}

/// Whether the last line is the expected one.
pub(crate) fn is_told(alloc: Global, (limits, program, journal, line): Case) -> bool {
    match read(alloc, program, journal) {
        Some(read) => ends_with(alloc, &read, limits, line),
        None => false,
    }
}

const USUAL: Limits = (2, 1_000_000, 4096, 4096, 8192);

const SPENT: Limits = (2, 1, 4096, 16, 16);

const SMALL: Limits = (2, 1_000_000, 4096, 16, 16);

const ENOUGH: Limits = (2, 1_000_000, 3, 16, 16);

const TIGHT: Limits = (2, 1_000_000, 2, 16, 16);

// PRINTS, once it has run two steps.
const RAN: &str = "trace 1\n0 took 0\n0 ran 0 2\n";

const ENDS: &[Case] = &[
    (USUAL, PRINTS, &[RAN, "0 ran 0 1\n"], "end: done\n"),
    (
        (1, 1, 4096, 16, 16),
        PRINTS,
        &[RAN, "0 fuel\n"],
        "end: fuel 2\n",
    ),
    (
        TIGHT,
        COLLECTS,
        &[TO_BEGIN, "0 putoff 1\n"],
        "end: trace refused short\n",
    ),
];

#[test]
fn runs_end_as_they_did(rt: HostRuntime) {
    for &case in ENDS {
        assert!(rt; is_told(rt.alloc(), case), "{}", case.3);
    }
}

const REFUSED: &[Case] = &[
    (USUAL, PRINTS, &[RAN], "end: trace refused short\n"),
    (
        USUAL,
        PRINTS,
        &[RAN, "0 ran 0 1\n0 fuel\n"],
        "end: trace refused entry 4 over\n",
    ),
    (
        SPENT,
        PRINTS,
        &[RAN, "0 ran 0 1\n"],
        "end: trace refused entry 3 spent 2\n",
    ),
    (
        SPENT,
        PRINTS,
        &[RAN, "5 took 0\n"],
        "end: trace refused entry 3 spent 2\n",
    ),
    (
        USUAL,
        PRINTS,
        &["trace 1\n2 took 9\n"],
        "end: trace refused entry 1 noworker\n",
    ),
    (
        USUAL,
        PRINTS,
        &["trace 1\n0 took 1\n"],
        "end: trace refused entry 1 notready\n",
    ),
    (
        USUAL,
        PRINTS,
        &["trace 1\n0 ran 0 1\n"],
        "end: trace refused entry 1 notout\n",
    ),
    (
        USUAL,
        PRINTS,
        &[TOOK, "0 ran 0 3\n"],
        "end: trace refused entry 2 long 2\n",
    ),
    (
        USUAL,
        PRINTS,
        &[TOOK, "0 chunk 0\n"],
        "end: trace refused entry 2 notneeded 0\n",
    ),
    (
        USUAL,
        PRINTS,
        &[TOOK, "0 begin 0\n"],
        "end: trace refused entry 2 notdue 0\n",
    ),
    (
        USUAL,
        PRINTS,
        &[TOOK, "0 putoff 0\n"],
        "end: trace refused entry 2 notdue 0\n",
    ),
    (
        USUAL,
        PRINTS,
        &[TOOK, "0 end 0 0 0 0\n"],
        "end: trace refused entry 2 notcollecting\n",
    ),
    (
        USUAL,
        PRINTS,
        &[TOOK, "0 mark 0\n"],
        "end: trace refused entry 2 notwaiting\n",
    ),
    (
        USUAL,
        PRINTS,
        &[TOOK, "0 fuel\n"],
        "end: trace refused entry 2 notspent 0\n",
    ),
    (
        USUAL,
        MARKS,
        &[TO_FORK, "0 took 1\n0 took 2\n"],
        "end: trace refused entry 6 holding 1\n",
    ),
    (
        USUAL,
        MARKS,
        &[TO_FORK, "0 mark 0\n"],
        "end: trace refused entry 5 notdue 19\n",
    ),
];

#[test]
fn entries_are_refused(rt: HostRuntime) {
    for &case in REFUSED {
        assert!(rt; is_told(rt.alloc(), case), "{}", case.3);
    }
}

const BEGUN: &str = "0 begin 1\n";

const MARKED: &str = "0 mark 0\n0 some 0 64\n";

const COLLECTIONS: &[Case] = &[
    (
        SMALL,
        COLLECTS,
        &[TO_BEGIN, "0 chunk 1\n"],
        "end: trace refused entry 11 due 16\n",
    ),
    (
        TIGHT,
        COLLECTS,
        &[TO_BEGIN, BEGUN],
        "end: trace refused entry 11 poolshort 2\n",
    ),
    (
        ENOUGH,
        COLLECTS,
        &[TO_BEGIN, "0 putoff 1\n"],
        "end: trace refused entry 11 poolenough 2\n",
    ),
    (
        SMALL,
        COLLECTS,
        &[TO_BEGIN, BEGUN, "0 ran 1 1\n"],
        "end: trace refused entry 12 collecting\n",
    ),
    (
        SMALL,
        COLLECTS,
        &[TO_BEGIN, BEGUN, "1 ran 1 1\n"],
        "end: trace refused entry 12 notout\n",
    ),
    (
        SMALL,
        COLLECTS,
        &[TO_BEGIN, BEGUN, "0 end 1 1 1 15\n"],
        "end: trace refused entry 12 count 15 16\n",
    ),
    (
        SMALL,
        COLLECTS,
        &[TO_BEGIN, BEGUN, "0 end 1 2 1 15\n"],
        "end: trace refused entry 12 count 2 1\n",
    ),
    (
        SMALL,
        MARKS,
        &[TO_FORK, "0 mark 0\n", "0 mark 0\n"],
        "end: trace refused entry 6 marking\n",
    ),
    (
        SMALL,
        MARKS,
        &[TO_FORK, "0 some 0 64\n"],
        "end: trace refused entry 5 notmarking\n",
    ),
    (
        SMALL,
        MARKS,
        &[TO_FORK, "0 mark 0\n0 some 0 1\n", "0 sweep 0 0\n"],
        "end: trace refused entry 7 left 1\n",
    ),
    (
        SMALL,
        MARKS,
        &[TO_FORK, MARKED, "0 some 0 1\n"],
        "end: trace refused entry 7 marked\n",
    ),
    (
        SMALL,
        MARKS,
        &[TO_FORK, MARKED, "0 sweep 0 5\n"],
        "end: trace refused entry 7 count 5 0\n",
    ),
    (
        SMALL,
        MARKS,
        &[TO_FORK, MARKED, "0 sweep 0 0\n0 mark 0\n"],
        "end: trace refused entry 8 swept\n",
    ),
];

#[test]
fn collections_are_refused(rt: HostRuntime) {
    for &case in COLLECTIONS {
        assert!(rt; is_told(rt.alloc(), case), "{}", case.3);
    }
}
