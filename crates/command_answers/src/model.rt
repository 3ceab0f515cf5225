// The answer of `model`.

ghost use Rattle.std.specs.Prelude.{IfOk};
ghost use Rattle.command_answers.specs.Answers.{AnswersModel, AnswersTrace, IsModelled};

use crate::answer::{Answer, CommandStatus};
use crate::extras::extras_of;
use crate::refusals::{bytes_alone, refused};
use command_line::Options;
use refusal_lines::{OrNoMemory, Refusal, TraceInput, read_trace_input, whole_run};
use std::alloc::{AllocError, Global};

// Replays a trace on the machine that never collects.
fn answer_trace(alloc: Global, options: Options, read: &TraceInput) -> Result<Answer, AllocError>
    ensures { IfOk result (AnswersTrace (IsModelled options) options.settings read.now) }
{
    let TraceInput { program, trace } = read;
    let settings = options.settings.with_version(trace.version);
    let journal = trace.entries.as_slice();
    match whole_run(alloc, program, settings, journal, extras_of(options)) {
        Ok(run) => Ok(bytes_alone(alloc, CommandStatus::of_end(run.end), run.text)),
        Err(OrNoMemory::Refused(entry)) => refused(alloc, Refusal::Entry(entry)),
        Err(OrNoMemory::NoMemory) => Err(AllocError),
    }
}

/// Reads a program with a trace, and replays it.
pub fn answer_model(alloc: Global, options: Options, input: &[u8]) -> Result<Answer, AllocError>
    ensures { IfOk result (AnswersModel options input.now) }
{
    match read_trace_input(alloc, input) {
        Ok(read) => answer_trace(alloc, options, &read),
        Err(OrNoMemory::Refused(fault)) => refused(alloc, Refusal::of_input(fault)),
        Err(OrNoMemory::NoMemory) => Err(AllocError),
    }
}
