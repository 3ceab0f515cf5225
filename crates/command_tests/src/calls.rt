// Calls of the whole program, over sources and sinks in memory, and their answers.

use command_core::{CallResult, command};
use io_traits::{EmptyGate, Gate, MemSink, MemSource};
use std::alloc::{AllocError, Global};
use std::process::Abort;
use std::sync::Wait;
use std::thread::Threads;

/// The options of a call, its input, its exit status, and what it writes.
pub(crate) type Row = (&'static str, &'static str, u8, &'static str);

/// An exit status, and what is written.
pub(crate) type Answer<'a> = (u8, &'a [u8]);

// Adds a word that isn't empty; returns whether there was memory for it.
fn add_word(alloc: Global, words: &mut Vec<String>, word: &str) -> bool {
    if word.is_empty() {
        return true;
    }
    match String::from_str(alloc, word) {
        Ok(word) => words.push(word).is_ok(),
        Err(_) => false,
    }
}

// Appends the words of a line; returns whether there was memory for them.
fn add_words(alloc: Global, words: &mut Vec<String>, line: &str) -> bool {
    for word in line.split(' ') {
        if !add_word(alloc, words, word) {
            return false;
        }
    }
    true
}

// The words of a command and its options.
fn words_of(alloc: Global, command: &str, options: &str) -> Option<Vec<String>> {
    let mut words = Vec::new(alloc);
    if add_words(alloc, &mut words, command) && add_words(alloc, &mut words, options) {
        Some(words)
    } else {
        None
    }
}

/// A source of these bytes, in which each file has them too.
pub(crate) fn source_of(alloc: Global, bytes: &[u8]) -> Result<MemSource, AllocError> {
    let input = bytes.to_vec(alloc)?;
    let named = bytes.to_vec(alloc)?;
    Ok(MemSource::new(input, named, 65536, Vec::new(alloc)))
}

/// A sink that never fails.
pub(crate) fn sink_of(alloc: Global) -> MemSink {
    MemSink::new(alloc, 65536, Vec::new(alloc))
}

/// What a call returns; None if there is no memory for its words.
pub(crate) fn ran<R: AllocGlobal + Threads + Wait + Sync, G: Gate>(
    rt: &R,
    (name, options): (&str, &str),
    source: &mut MemSource,
    sink: &mut MemSink,
    gate: &G,
) -> Option<CallResult> {
    match words_of(rt.alloc(), name, options) {
        Some(words) => Some(command(rt, rt.alloc(), &words, source, sink, gate)),
        None => None,
    }
}

/// The exit status of a call.
pub(crate) fn status_of<R: AllocGlobal + Threads + Wait + Sync, G: Gate>(
    rt: &R,
    words: (&str, &str),
    source: &mut MemSource,
    sink: &mut MemSink,
    gate: &G,
) -> Option<u8> {
    match ran(rt, words, source, sink, gate) {
        Some(ran) => Some(ran.status.code()),
        None => None,
    }
}

/// The exit status of a call with this input.
pub(crate) fn status_with<R: AllocGlobal + Threads + Wait + Sync>(
    rt: &R,
    words: (&str, &str),
    input: &[u8],
    sink: &mut MemSink,
) -> Option<u8> {
    match source_of(rt.alloc(), input) {
        Ok(mut source) => status_of(rt, words, &mut source, sink, &EmptyGate),
        Err(_) => None,
    }
}

/// Whether a call over a source has this exit status and writes exactly this.
pub(crate) fn answers<R: AllocGlobal + Threads + Wait + Sync, G: Gate>(
    rt: &R,
    words: (&str, &str),
    source: &mut MemSource,
    gate: &G,
    (status, bytes): Answer<'_>,
) -> bool {
    let mut sink = sink_of(rt.alloc());
    let code = status_of(rt, words, source, &mut sink, gate);
    code == Some(status) && sink.written() == bytes
}

/// The same for a call with this input.
pub(crate) fn answers_input<R: AllocGlobal + Threads + Wait + Sync>(
    rt: &R,
    words: (&str, &str),
    input: &[u8],
    answer: Answer<'_>,
) -> bool {
    match source_of(rt.alloc(), input) {
        Ok(mut source) => answers(rt, words, &mut source, &EmptyGate, answer),
        Err(_) => false,
    }
}

/// Whether a call over a source has this answer, and leaves this number of its last bytes.
pub(crate) fn answers_leaving<R: AllocGlobal + Threads + Wait + Sync>(
    rt: &R,
    words: (&str, &str),
    source: Result<MemSource, AllocError>,
    answer: Answer<'_>,
    left: usize,
) -> bool {
    match source {
        Ok(mut source) => {
            answers(rt, words, &mut source, &EmptyGate, answer) && source.left().len() == left
        }
        Err(_) => false,
    }
}

/// Checks the answer of each call of a command.
pub(crate) fn check_calls<R: Abort + AllocGlobal + Threads + Wait + Sync>(
    rt: &R,
    command: &str,
    rows: &[Row],
) {
    for &(options, input, status, bytes) in rows {
        let answer = (status, bytes.as_bytes());
        let answers = answers_input(rt, (command, options), input.as_bytes(), answer);
        assert!(rt; answers, "{command} {options}: {input}");
    }
}
