// The result of a call during which one allocation was refused.

use crate::call::{Call, call_of, call_with, program_of};
use crate::trials::Trial;
use command_core::CallResult;
use run_trace::{Entry, trace_text};
use std::alloc::{AllocError, Global};
use std::sync::Wait;
use std::thread::Threads;

/// The result.
#[derive(Clone, Copy)]
pub(crate) enum Told {
    /// The allocation was refused before the call.
    Before,
    /// The call met no refusal; the number of allocations from the beginning up to its end.
    Unmet(u64),
    /// Out of memory, with nothing returned.
    Nothing,
    /// Out of memory, with a legal journal without an end.
    Part,
    /// Out of memory, with a legal journal that has an end.
    Whole,
    /// A write fault with nothing written, since the sink had no memory, and a legal journal that has an end.
    Unwritten,
    /// The call gave the answer that it gives with memory to spare.
    Answered,
    /// Anything else.
    Wrong,
}

impl Told {
    /// The word that is printed for it.
    pub(crate) fn text(self) -> &'static str {
        match self {
            Told::Before => "before",
            Told::Unmet(_) => "unmet",
            Told::Nothing => "nothing",
            Told::Part => "part",
            Told::Whole => "whole",
            Told::Unwritten => "unwritten",
            Told::Answered => "answered",
            Told::Wrong => "wrong",
        }
    }

    /// The number of allocations of a call that met no refusal, otherwise 0.
    pub(crate) fn count(self) -> u64 {
        match self {
            Told::Unmet(count) => count,
            _ => 0,
        }
    }
}

// One allocation; whether it succeeded.
fn has_memory(alloc: Global) -> bool {
    let mut bytes = Vec::new(alloc);
    bytes.push(0u8).is_ok()
}

// n allocations; which one, from 0 on, is refused.
fn refused_of(alloc: Global, count: u64) -> Option<u64> {
    for at in 0..count {
        if !has_memory(alloc) {
            return Some(at);
        }
    }
    None
}

// The text that replays a journal.
fn replay_text<R: AllocGlobal + Threads + Wait + Sync>(
    rt: &R,
    trial: Trial,
    journal: &[Entry],
) -> Result<Vec<u8>, AllocError> {
    let mut text = program_of(rt, trial)?;
    let trace = trace_text(rt.alloc(), trial.version(), journal)?;
    text.extend_from_slice(trace.as_slice())?;
    Ok(text)
}

const SHORT: &[u8] = b"end: trace refused short\n";

// Whether a journal is replayed: to its end, or to its last entry.
fn is_replayed<R: AllocGlobal + Threads + Wait + Sync>(
    rt: &R,
    trial: Trial,
    journal: &[Entry],
    has_end: bool,
) -> Result<bool, AllocError> {
    let text = replay_text(rt, trial, journal)?;
    let mut call = call_with(rt.alloc(), trial.replay, text)?;
    let code = call.answer(rt).status.code();
    if has_end {
        Ok(code == 0)
    } else {
        Ok(code == 11 && call.sink.written() == SHORT)
    }
}

// The result when out of memory.
fn handed_back<R: AllocGlobal + Threads + Wait + Sync>(
    rt: &R,
    trial: Trial,
    ran: &CallResult,
) -> Told {
    let journal = ran.journal.as_slice();
    let Some(left) = &ran.shared else {
        return if journal.is_empty() {
            Told::Nothing
        } else {
            Told::Wrong
        };
    };
    let has_end = left.ended().is_some();
    match is_replayed(rt, trial, journal, has_end) {
        Ok(true) if has_end => Told::Whole,
        Ok(true) => Told::Part,
        _ => Told::Wrong,
    }
}

// The result when the sink had no memory.
fn unwritten<R: AllocGlobal + Threads + Wait + Sync>(
    rt: &R,
    trial: Trial,
    ran: &CallResult,
) -> Told {
    match handed_back(rt, trial, ran) {
        Told::Whole => Told::Unwritten,
        _ => Told::Wrong,
    }
}

// Whether the call has the answer that it gives with memory to spare.
fn is_answer<R: AllocGlobal + Threads + Wait + Sync>(
    rt: &R,
    trial: Trial,
    code: u8,
    written: &[u8],
) -> bool {
    match call_of(rt, trial) {
        Ok(mut call) => call.answer(rt).status.code() == code && call.sink.written() == written,
        Err(_) => false,
    }
}

// The result of a call that met the refusal.
fn judged<R: AllocGlobal + Threads + Wait + Sync>(
    rt: &R,
    trial: Trial,
    ran: &CallResult,
    written: &[u8],
) -> Told {
    let code = ran.status.code();
    if code == 10 && written.is_empty() {
        handed_back(rt, trial, ran)
    } else if code == 9 && written.is_empty() {
        unwritten(rt, trial, ran)
    } else if code == 0 && is_answer(rt, trial, code, written) {
        Told::Answered
    } else {
        Told::Wrong
    }
}

// The result of a call after `first` allocations.
fn told_over<R: AllocGlobal + Threads + Wait + Sync>(
    rt: &R,
    trial: Trial,
    call: &mut Call,
    first: u64,
    at: u64,
) -> Told {
    if refused_of(rt.alloc(), first).is_some() {
        return Told::Before;
    }
    let ran = call.answer(rt);
    match refused_of(rt.alloc(), at) {
        Some(spare) => Told::Unmet(at.saturating_sub(spare).saturating_sub(1)),
        None => judged(rt, trial, &ran, call.sink.written()),
    }
}

/// The result of a trial's call after `first` allocations, if the refused one is at most `at` further on.
pub(crate) fn told_of<R: AllocGlobal + Threads + Wait + Sync>(
    rt: &R,
    trial: Trial,
    first: u64,
    at: u64,
) -> Told {
    match call_of(rt, trial) {
        Ok(mut call) => told_over(rt, trial, &mut call, first, at),
        Err(_) => Told::Before,
    }
}
