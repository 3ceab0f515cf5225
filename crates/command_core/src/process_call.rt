// The call of a process: its arguments, files, standard input and standard output.

use crate::top_call::{call_status, command};
use io_traits::{EmptyGate, FileSource, OutSink};
use run_answers::CommandStatus;
use std::alloc::AllocError;
use std::io;
use std::rt::{Env, Files};
use std::sync::Wait;
use std::thread::Threads;
use whole_call::{CallStatus, words_after_name, words_of_call};

// Answers these arguments.
fn answer_words<R: Threads + Wait + Sync + Files + Input + Print + AllocGlobal>(
    rt: &R,
    words: &[String],
) -> CommandStatus {
    let mut source = FileSource::new(rt, rt.reader());
    let mut sink = OutSink::new(io::writer(rt));
    command(rt, rt.alloc(), words, &mut source, &mut sink, &EmptyGate).into_status()
}

/// Answers the arguments of the process: passes them, its files, standard input and standard output to `command`.
pub fn answer_process<R: Threads + Wait + Sync + Env + Files + Input + Print + AllocGlobal>(
    rt: &R,
) -> CallStatus {
    match words_of_call(rt) {
        Err(AllocError) => CallStatus::NoMemory,
        Ok(words) => call_status(answer_words(rt, words_after_name(words.as_slice()))),
    }
}
