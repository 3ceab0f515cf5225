// Writes an answer.

ghost use Rattle.std.specs.Prelude.{◌≡◌};
ghost use Rattle.read_write_all.specs.below.io_traits.{HasRisen};
ghost use Rattle.command_answers.specs.Delivery.{IsAnswered, Delivered, ReturnsBlock, ReturnsNothing};

use crate::answer::{Answer, CallResult, CommandStatus};
use crate::wanted::Wanted;
use race_report::Listed;
use read_write_all::{Failed, Sink, write_all};
use std::alloc::Global;

/// What is returned if nothing was answered.
pub fn nothing(alloc: Global, status: CommandStatus) -> CallResult
    ensures { ReturnsNothing status result }
{
    CallResult {
        status,
        journal: Listed::new(alloc),
        shared: None,
    }
}

/// What is returned when out of memory.
pub fn return_wanted(alloc: Global, wanted: Wanted) -> CallResult
    ensures { ReturnsBlock wanted result }
{
    match wanted {
        Wanted::Before => nothing(alloc, CommandStatus::NoMemory),
        Wanted::Amid(journal, remains) => CallResult {
            status: CommandStatus::NoMemory,
            journal,
            shared: Some(remains),
        },
    }
}

/// Writes an answer.
pub fn deliver<K: Sink>(answer: Answer, sink: &mut K) -> CallResult
    requires { IsAnswered answer.status }
    ensures delivered { Delivered answer result (K.written sink.old) (K.written sink.new) }
    ensures fault { result.status ≡ CommandStatus.WriteFault → HasRisen (K.faults sink.old) (K.faults sink.new) }
{
    let Answer {
        status,
        bytes,
        journal,
        shared,
    } = answer;
    let status = match write_all(sink, bytes.as_slice()) {
        Ok(()) => status,
        Err(Failed) => CommandStatus::WriteFault,
    };
    CallResult {
        status,
        journal,
        shared,
    }
}
