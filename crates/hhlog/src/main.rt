// The program `hhlog`: hands its words, files, standard output and standard error to the call.
#![tactic(auto)]

use io_traits::{FileSource, OutSink};
use log_command::check;
use std::alloc::AllocError;
use std::io;
use std::process::ExitCode;
use whole_call::{CallStatus, exit_code, words_after_name, words_of_call};

// Answers these arguments.
fn answer(rt: &HostRuntime, words: &[String]) -> CallStatus {
    let mut source = FileSource::new(rt, rt.reader());
    let mut out = OutSink::new(io::writer(rt));
    let mut error = OutSink::new(rt.stderr());
    check(rt.alloc(), words, &mut source, &mut out, &mut error)
}

fn main(rt: HostRuntime) -> ExitCode {
    let status = match words_of_call(&rt) {
        Err(AllocError) => CallStatus::NoMemory,
        Ok(words) => answer(&rt, words_after_name(words.as_slice())),
    };
    exit_code(status)
}
