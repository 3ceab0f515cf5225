// The top call.

ghost use Rattle.std.specs.Prelude.{◌≡◌, ◌≢◌, map, Some, string_bytes, IfOk};
ghost use Rattle.io_traits.specs.Fault.{HasRisen};
ghost use Rattle.command_line.specs.CommandLine.{command_line, HasSize};
ghost use Rattle.run_answers.specs.below.command_answers.{code_of_status, DeliversLine, DeliversWords, GivesFound, IsAnswered};
ghost use Rattle.whole_call.specs.CallStatus.{code_of_status as code_of_call};
ghost use Rattle.command_core.specs.Call.{call_status, AnswersCommand};

use crate::answers::answer_line;
use command_line::{CommandLine, read_command_line};
use io_traits::{Gate, Sink, Source};
use refusal_lines::Refusal;
use run_answers::{
    Answer, CallResult, CommandStatus, ReadError, Wanted, deliver, nothing, read_input, refused,
    return_wanted,
};
use std::alloc::{AllocError, Global};
use std::sync::Wait;
use std::thread::Threads;
use whole_call::{AnswerStatus, CallStatus};

// Answers arguments that are no command line.
fn refuse_words<K: Sink>(alloc: Global, sink: &mut K) -> CallResult
    ensures answer { DeliversWords result (K.written sink.old) (K.written sink.new) }
    ensures read { result.status ≢ CommandStatus.ReadFault }
    ensures write_fault { result.status ≡ CommandStatus.WriteFault → HasRisen (K.faults sink.old) (K.faults sink.new) }
{
    match refused(alloc, Refusal::Words) {
        Ok(answer) => deliver(answer, sink),
        Err(AllocError) => nothing(alloc, CommandStatus::NoMemory),
    }
}

// Writes an answer, or what is left if an allocation failed.
fn give<K: Sink>(alloc: Global, found: Result<Answer, Wanted>, sink: &mut K) -> CallResult
    requires { IfOk found (λ a. IsAnswered a.status) }
    ensures given { GivesFound found result (K.written sink.old) (K.written sink.new) }
    ensures write_fault { result.status ≡ CommandStatus.WriteFault → HasRisen (K.faults sink.old) (K.faults sink.new) }
{
    match found {
        Ok(answer) => deliver(answer, sink),
        Err(found) => return_wanted(alloc, found),
    }
}

// Answers an input.
fn serve<R: Threads + Wait + Sync, K: Sink, G: Gate>(
    rt: &R,
    alloc: Global,
    line: &CommandLine,
    input: &[u8],
    sink: &mut K,
    gate: &G,
) -> CallResult
    requires { HasSize (Some line.now) }
    ensures answer { DeliversLine line.now input.now result (K.written sink.old) (K.written sink.new) }
    ensures read { result.status ≢ CommandStatus.ReadFault }
    ensures write_fault { result.status ≡ CommandStatus.WriteFault → HasRisen (K.faults sink.old) (K.faults sink.new) }
{
    let found = answer_line(rt, alloc, line, input, gate);
    give(alloc, found, sink)
}

// Reads the input of a command, and answers it.
fn answer<R: Threads + Wait + Sync, S: Source, K: Sink, G: Gate>(
    rt: &R,
    alloc: Global,
    line: &CommandLine,
    source: &mut S,
    sink: &mut K,
    gate: &G,
) -> CallResult
    requires { HasSize (Some line.now) }
    ensures { AnswersCommand (Some line.now) result (record { left = S.left source.old; named = S.named source.old; faults = S.faults source.old }) (record { left = S.left source.new; named = S.named source.new; faults = S.faults source.new }) (K.written sink.old) (K.written sink.new) (HasRisen (K.faults sink.old) (K.faults sink.new)) }
{
    match read_input(alloc, source, line) {
        Err(ReadError::Fault) => nothing(alloc, CommandStatus::ReadFault),
        Err(ReadError::NoMemory) => nothing(alloc, CommandStatus::NoMemory),
        Ok(input) => serve(rt, alloc, line, input.as_slice(), sink, gate),
    }
}

/// Answers a command line: reads its input from the source, does what it asks for, and writes to the sink.
///
/// `words` are the command-line arguments after the program's name. All bytes are built before the first is written.
pub fn command<R: Threads + Wait + Sync, S: Source, K: Sink, G: Gate>(
    rt: &R,
    alloc: Global,
    words: &[String],
    source: &mut S,
    sink: &mut K,
    gate: &G,
) -> CallResult
    ensures { AnswersCommand (command_line (map string_bytes words.now)) result (record { left = S.left source.old; named = S.named source.old; faults = S.faults source.old }) (record { left = S.left source.new; named = S.named source.new; faults = S.faults source.new }) (K.written sink.old) (K.written sink.new) (HasRisen (K.faults sink.old) (K.faults sink.new)) }
{
    match read_command_line(alloc, words) {
        Err(AllocError) => nothing(alloc, CommandStatus::NoMemory),
        Ok(None) => refuse_words(alloc, sink),
        Ok(Some(line)) => answer(rt, alloc, &line, source, sink, gate),
    }
}

/// How a call ended, in the terms of a call of any program.
pub fn call_status(status: CommandStatus) -> CallStatus
    ensures status { result ≡ call_status status }
    ensures code { code_of_call result ≡ code_of_status status }
{
    match status {
        CommandStatus::Done => CallStatus::Answered(AnswerStatus::Done),
        CommandStatus::Words => CallStatus::Answered(AnswerStatus::Words),
        CommandStatus::Source => CallStatus::Answered(AnswerStatus::Source),
        CommandStatus::Trap => CallStatus::Answered(AnswerStatus::Trap),
        CommandStatus::Entangled => CallStatus::Answered(AnswerStatus::Entangled),
        CommandStatus::Fuel => CallStatus::Answered(AnswerStatus::Fuel),
        CommandStatus::Pool => CallStatus::Answered(AnswerStatus::Pool),
        CommandStatus::ReadFault => CallStatus::ReadFault,
        CommandStatus::WriteFault => CallStatus::WriteFault,
        CommandStatus::NoMemory => CallStatus::NoMemory,
        CommandStatus::Trace => CallStatus::Answered(AnswerStatus::Trace),
        CommandStatus::Races => CallStatus::Answered(AnswerStatus::Races),
        CommandStatus::Image => CallStatus::Answered(AnswerStatus::Image),
    }
}
