// Answers that return nothing of a run.

ghost use Rattle.std.specs.Prelude.{◌≡◌, IfOk};
ghost use Rattle.std.specs.String.{string_bytes};
ghost use Rattle.command_answers.specs.CommandStatus.{status_of_refusal};
ghost use Rattle.command_answers.specs.Answers.{IsText, Refuses, short_of};

use crate::answer::{Answer, CommandStatus};
use race_report::{Entry, Listed, Refused, RefusedAt};
use refusal_lines::{Refusal, refusal_text};
use std::alloc::{AllocError, Global};

/// Bytes, with nothing of a run.
pub fn bytes_alone(alloc: Global, status: CommandStatus, bytes: Listed<u8>) -> Answer
    ensures { IsText status bytes result }
{
    Answer {
        status,
        bytes,
        journal: Listed::new(alloc),
        shared: None,
    }
}

/// A text, with nothing of a run.
pub(crate) fn text_alone(alloc: Global, status: CommandStatus, text: String) -> Answer
    ensures { IsText status (string_bytes text) result }
{
    bytes_alone(alloc, status, Listed::from_vec(text.into_bytes()))
}

// The status of a refusal.
fn status_of(refusal: Refusal) -> CommandStatus
    ensures { result ≡ status_of_refusal refusal }
{
    match refusal {
        Refusal::Words => CommandStatus::Words,
        Refusal::Source(_) => CommandStatus::Source,
        Refusal::Line(_) => CommandStatus::Trace,
        Refusal::Entry(_) => CommandStatus::Trace,
        Refusal::Image(_) => CommandStatus::Image,
    }
}

/// The refusal of command-line arguments, or of an input.
pub fn refused(alloc: Global, refusal: Refusal) -> Result<Answer, AllocError>
    ensures { IfOk result (Refuses refusal) }
{
    let text = refusal_text(alloc, refusal)?;
    Ok(text_alone(alloc, status_of(refusal), text))
}

/// The answer to a trace that isn't refused, but has no end of its run.
pub fn trace_short(alloc: Global, journal: &[Entry]) -> Result<Answer, AllocError>
    ensures { IfOk result (Refuses (Refusal.Entry (short_of journal.now))) }
{
    let index = journal.len() as u64 + 1;
    let cause = Refused::Short;
    refused(alloc, Refusal::Entry(RefusedAt { index, cause }))
}
