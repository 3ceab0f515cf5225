// A call over a source and a sink in memory.

use crate::trials::Trial;
use command_core::{CallResult, command};
use io_traits::{EmptyGate, MemSink, MemSource};
use std::alloc::{AllocError, Global};
use std::sync::Wait;
use std::thread::Threads;

/// Its words, what it reads, and what it writes to.
#[derive(Drop)]
pub(crate) struct Call {
    pub words: Vec<String>,
    pub source: MemSource,
    pub sink: MemSink,
}

fn words_of(alloc: Global, line: &str) -> Result<Vec<String>, AllocError> {
    let mut words = Vec::new(alloc);
    for word in line.split(' ') {
        words.push(String::from_str(alloc, word)?)?;
    }
    Ok(words)
}

/// A call with this input.
pub(crate) fn call_with(alloc: Global, line: &str, input: Vec<u8>) -> Result<Call, AllocError> {
    Ok(Call {
        words: words_of(alloc, line)?,
        source: MemSource::new(input, Vec::new(alloc), 65536, Vec::new(alloc)),
        sink: MemSink::new(alloc, 65536, Vec::new(alloc)),
    })
}

impl Call {
    /// What it returns.
    pub(crate) fn answer<R: AllocGlobal + Threads + Wait + Sync>(&mut self, rt: &R) -> CallResult {
        command(
            rt,
            rt.alloc(),
            self.words.as_slice(),
            &mut self.source,
            &mut self.sink,
            &EmptyGate,
        )
    }
}

// The program that is made.
fn made<R: AllocGlobal + Threads + Wait + Sync>(rt: &R) -> Result<Vec<u8>, AllocError> {
    let mut call = call_with(rt.alloc(), "make 1 20", Vec::new(rt.alloc()))?;
    let _ = call.answer(rt);
    call.sink.written().to_vec(rt.alloc())
}

/// The program of a trial.
pub(crate) fn program_of<R: AllocGlobal + Threads + Wait + Sync>(
    rt: &R,
    trial: Trial,
) -> Result<Vec<u8>, AllocError> {
    if trial.program.is_empty() {
        made(rt)
    } else {
        trial.program.as_bytes().to_vec(rt.alloc())
    }
}

/// The call of a trial.
pub(crate) fn call_of<R: AllocGlobal + Threads + Wait + Sync>(
    rt: &R,
    trial: Trial,
) -> Result<Call, AllocError> {
    let mut input = program_of(rt, trial)?;
    input.extend_from_slice(trial.trace.as_bytes())?;
    call_with(rt.alloc(), trial.words, input)
}
