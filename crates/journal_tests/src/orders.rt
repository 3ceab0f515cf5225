// Entries that could be refused for two causes: which one comes first. And what a refused entry stops.

use crate::programs::{
    COLLECTS, Limits, MARKS, PRINTS, SWEEPS, TO_BEGIN, TO_FORK, TOOK, read, settings,
};
use crate::refusals::{Case, is_told};
use run_journal::{Book, Entry, OrNoMemory, Refused};
use std::alloc::Global;
use trace_input::TraceInput;

// It forks, and makes no object.
const FORKS: &str = "fn kid\nret\nend\nfn main\npar kid kid\nret\nend\n";

// COLLECTS, up to its left child's first object.
const TO_FIRST: &str =
    "trace 1\n0 took 0\n0 ran 0 2\n0 chunk 0\n0 ran 0 2\n0 took 1\n1 took 2\n0 ran 1 2\n0 chunk 1\n";

const BEGUN: &str = "0 begin 1\n";

// MARKS is swept while it waits.
const SWEPT: &str = "0 mark 0\n0 some 0 64\n0 sweep 0 0\n";

// MARKS is swept while the left child runs, and both children join.
const TO_JOIN: &str =
    "0 took 1\n0 ran 1 2\n0 ran 1 2\n0 mark 0\n0 some 0 64\n0 sweep 0 0\n0 ran 1 1\n0 ran 1 1\n0 took 2\n0 ran 2 1\n";

// SWEEPS is swept at its fork, and holds 502 words then.
const TO_SWEPT: &str =
    "trace 1\n0 took 0\n0 ran 0 2\n0 chunk 0\n0 ran 0 3\n0 chunk 0\n0 ran 0 2\n0 mark 0\n0 some 0 64\n0 sweep 0 1\n";

const ONE_STEP: Limits = (2, 1, 99, 16, 16);

const FEW_STEPS: Limits = (2, 9, 99, 16, 16);

const MANY_STEPS: Limits = (2, 99, 99, 16, 16);

const THREE_CHUNKS: Limits = (2, 99, 3, 16, 16);

const TWO_CHUNKS: Limits = (2, 99, 2, 16, 16);

// The limits for SWEEPS: a leaf collection is due after 4,096 words, an inner one at 1,000.
const LARGE: Limits = (2, 99, 99, 4096, 1000);

const CASES: &[Case] = &[
    (
        ONE_STEP,
        PRINTS,
        &[TOOK, "0 ran 0 2\n0 fuel\n5 took 9\n"],
        "end: trace refused entry 4 over\n",
    ),
    (
        FEW_STEPS,
        PRINTS,
        &[TOOK, "2 fuel\n"],
        "end: trace refused entry 2 noworker\n",
    ),
    (
        FEW_STEPS,
        PRINTS,
        &[TOOK, "2 ran 1 1\n"],
        "end: trace refused entry 2 noworker\n",
    ),
    (
        FEW_STEPS,
        PRINTS,
        &[TOOK, "0 took 0\n"],
        "end: trace refused entry 2 notready\n",
    ),
    (
        MANY_STEPS,
        COLLECTS,
        &[TO_BEGIN, BEGUN, "1 chunk 1\n"],
        "end: trace refused entry 12 notout\n",
    ),
    (
        MANY_STEPS,
        COLLECTS,
        &[TO_BEGIN, BEGUN, "1 begin 1\n"],
        "end: trace refused entry 12 notout\n",
    ),
    (
        MANY_STEPS,
        COLLECTS,
        &[TO_BEGIN, BEGUN, "1 putoff 1\n"],
        "end: trace refused entry 12 notout\n",
    ),
    (
        MANY_STEPS,
        COLLECTS,
        &[TO_BEGIN, "1 end 1 9 9 9\n"],
        "end: trace refused entry 11 notout\n",
    ),
    (
        MANY_STEPS,
        COLLECTS,
        &[TO_BEGIN, "1 chunk 1\n"],
        "end: trace refused entry 11 notout\n",
    ),
    (
        MANY_STEPS,
        COLLECTS,
        &[TO_BEGIN, BEGUN, "0 chunk 1\n"],
        "end: trace refused entry 12 collecting\n",
    ),
    (
        MANY_STEPS,
        COLLECTS,
        &[TO_BEGIN, BEGUN, "0 putoff 1\n"],
        "end: trace refused entry 12 collecting\n",
    ),
    (
        THREE_CHUNKS,
        COLLECTS,
        &[TO_BEGIN, BEGUN, BEGUN],
        "end: trace refused entry 12 collecting\n",
    ),
    (
        TWO_CHUNKS,
        COLLECTS,
        &[TO_FIRST, BEGUN],
        "end: trace refused entry 9 notdue 0\n",
    ),
    (
        FEW_STEPS,
        PRINTS,
        &[TOOK, "0 end 0 9 9 9\n"],
        "end: trace refused entry 2 notcollecting\n",
    ),
    (
        MANY_STEPS,
        COLLECTS,
        &[TO_BEGIN, BEGUN, "0 end 1 2 3 4\n"],
        "end: trace refused entry 12 count 2 1\n",
    ),
    (
        MANY_STEPS,
        COLLECTS,
        &[TO_BEGIN, BEGUN, "0 end 1 1 9 4\n"],
        "end: trace refused entry 12 count 9 1\n",
    ),
    (
        MANY_STEPS,
        MARKS,
        &[TO_FORK, "0 took 1\n0 some 1 1\n"],
        "end: trace refused entry 6 notwaiting\n",
    ),
    (
        MANY_STEPS,
        MARKS,
        &[TO_FORK, TO_JOIN, "0 sweep 0 9\n"],
        "end: trace refused entry 15 notwaiting\n",
    ),
    (
        MANY_STEPS,
        MARKS,
        &[TO_FORK, SWEPT, "0 some 0 1\n"],
        "end: trace refused entry 8 swept\n",
    ),
    (
        MANY_STEPS,
        MARKS,
        &[TO_FORK, SWEPT, "0 sweep 0 9\n"],
        "end: trace refused entry 8 swept\n",
    ),
    (
        LARGE,
        SWEEPS,
        &[TO_SWEPT, "0 mark 0\n"],
        "end: trace refused entry 10 swept\n",
    ),
    (
        MANY_STEPS,
        FORKS,
        &[TOOK, "0 ran 0 1\n0 some 0 1\n"],
        "end: trace refused entry 3 notmarking\n",
    ),
    (
        MANY_STEPS,
        MARKS,
        &[TO_FORK, "0 sweep 0 9\n"],
        "end: trace refused entry 5 notmarking\n",
    ),
    (
        MANY_STEPS,
        MARKS,
        &[TO_FORK, "0 mark 0\n0 some 0 1\n0 sweep 0 9\n"],
        "end: trace refused entry 7 left 1\n",
    ),
];

#[test]
fn first_cause_is_told(rt: HostRuntime) {
    for &case in CASES {
        assert!(rt; is_told(rt.alloc(), case), "{}", case.3);
    }
}

// The second entry is refused, then all are.
const STOPPED: &[&str] = &["trace 1\n0 took 0\n0 ran 0 3\n0 ran 0 2\n5 fuel\n"];

const CAUSES: &[Option<Refused>] = &[
    None,
    Some(Refused::Long(2)),
    Some(Refused::Stopped),
    Some(Refused::Stopped),
];

// Why a book refuses an entry.
fn cause_of(book: &mut Book, entry: Entry) -> Option<Refused> {
    match book.apply(entry) {
        Err(OrNoMemory::Refused(cause)) => Some(cause),
        _ => None,
    }
}

// Whether a book refuses consecutive entries for these causes, and is stopped from the first refused one on.
fn refuses(book: &mut Book, entries: &[Entry], causes: &[Option<Refused>]) -> bool {
    for (entry, cause) in entries.iter().zip(causes) {
        if cause_of(book, *entry) != *cause || book.is_stopped() != cause.is_some() {
            return false;
        }
        if !book.is_stopped() {
            book.legal();
        }
    }
    entries.len() == causes.len()
}

// The same for a new book of a program that was read with the entries.
fn refuses_in_new_book(alloc: Global, read: &TraceInput) -> bool {
    match Book::open(alloc, &read.program, settings(FEW_STEPS)) {
        Ok(mut book) => refuses(&mut book, read.trace.entries.as_slice(), CAUSES),
        Err(_) => false,
    }
}

// The same for the program and the entries of a text.
fn stops(alloc: Global, program: &str, journal: &[&str]) -> bool {
    match read(alloc, program, journal) {
        Some(read) => refuses_in_new_book(alloc, &read),
        None => false,
    }
}

#[test]
fn refused_entry_stops(rt: HostRuntime) {
    assert!(rt; stops(rt.alloc(), PRINTS, STOPPED));
}
