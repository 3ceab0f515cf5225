// The refusal of a log that is too large.

ghost use Rattle.std.specs.Prelude.{◌≡◌, IfOk, string_bytes};
ghost use Rattle.whole_call.specs.Output.{Says};
ghost use Rattle.log_replies.specs.Shown.{size_text, size_line};

use log_findings::ReportError;
use std::alloc::{AllocError, Global};
use whole_call::{AnswerStatus, Reply};

fn size_text(cause: ReportError) -> &'static str
    ensures { result.now ≡ size_text cause }
{
    match cause {
        ReportError::TooLong => "too many lines or strands",
        ReportError::TooManyStretches => "too many locations",
        ReportError::TooMuchWork => "too much work",
        ReportError::TooManyWords => "too many words",
        ReportError::NoMemory => "out of memory",
    }
}

fn size_line(alloc: Global, cause: ReportError) -> Result<String, AllocError>
    ensures { IfOk result (λ text. string_bytes text ≡ size_line cause) }
{
    let words = size_text(cause);
    format!(in alloc; "end: log refused: {words}\n")
}

/// The refusal.
pub(crate) fn size_refusal(alloc: Global, cause: ReportError) -> Result<Reply, AllocError>
    ensures { IfOk result (Says AnswerStatus.Trace (size_line cause)) }
{
    let text = size_line(alloc, cause)?;
    Ok(Reply::of_text(AnswerStatus::Trace, text))
}
