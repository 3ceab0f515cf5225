// Calls of the view, and what they write.

use io_traits::{MemSink, MemSource};
use std::alloc::{AllocError, Global};
use std::process::Abort;
use view_core::view;

/// The words of a call, its input, its exit status, and what it writes to standard output and to standard error.
pub(crate) type Call = (&'static str, &'static str, u8, &'static str, &'static str);

// Adds a word that isn't empty, and says whether there was memory for it.
fn add_word(alloc: Global, words: &mut Vec<String>, word: &str) -> bool {
    if word.is_empty() {
        return true;
    }
    match String::from_str(alloc, word) {
        Ok(word) => words.push(word).is_ok(),
        Err(_) => false,
    }
}

// The words of a line.
fn words_of(alloc: Global, line: &str) -> Option<Vec<String>> {
    let mut words = Vec::new(alloc);
    for word in line.split(' ') {
        if !add_word(alloc, &mut words, word) {
            return None;
        }
    }
    Some(words)
}

// A source of these bytes, which each file has too, and which fails at these calls.
fn source_of(alloc: Global, bytes: &[u8], failing: &[u64]) -> Result<MemSource, AllocError> {
    let input = bytes.to_vec(alloc)?;
    let named = bytes.to_vec(alloc)?;
    Ok(MemSource::new(input, named, 100, failing.to_vec(alloc)?))
}

// A sink that fails at these calls.
fn sink_of(alloc: Global, failing: &[u64]) -> Option<MemSink> {
    match failing.to_vec(alloc) {
        Ok(failing) => Some(MemSink::new(alloc, 1000, failing)),
        Err(AllocError) => None,
    }
}

// The exit status of a call over a source and sinks.
fn status_of(
    alloc: Global,
    line: &str,
    source: &mut MemSource,
    out: &mut MemSink,
    error: &mut MemSink,
) -> Option<u8> {
    match words_of(alloc, line) {
        Some(words) => Some(view(alloc, &words, source, out, error).code()),
        None => None,
    }
}

// Whether a call over a source and sinks has this exit status, and writes just this.
fn writes(
    alloc: Global,
    line: &str,
    source: &mut MemSource,
    out: &mut MemSink,
    (status, to_out, to_error): (u8, &[u8], &[u8]),
) -> bool {
    match sink_of(alloc, &[]) {
        None => false,
        Some(mut error) => {
            let code = status_of(alloc, line, source, out, &mut error);
            code == Some(status) && out.written() == to_out && error.written() == to_error
        }
    }
}

/// The same of a call with this input, where these calls of the source and of standard output fail.
pub(crate) fn shows(
    alloc: Global,
    line: &str,
    input: &[u8],
    (reads, writes_failing): (&[u64], &[u64]),
    answer: (u8, &[u8], &[u8]),
) -> bool {
    match (
        source_of(alloc, input, reads),
        sink_of(alloc, writes_failing),
    ) {
        (Ok(mut source), Some(mut out)) => writes(alloc, line, &mut source, &mut out, answer),
        _ => false,
    }
}

/// Checks that each call is answered as it should be.
pub(crate) fn check_calls<R: Abort + AllocGlobal>(rt: &R, calls: &[Call]) {
    for &(line, input, status, out, error) in calls {
        let answer = (status, out.as_bytes(), error.as_bytes());
        let answers = shows(rt.alloc(), line, input.as_bytes(), (&[], &[]), answer);
        assert!(rt; answers, "{line}: {input}");
    }
}
