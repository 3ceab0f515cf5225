// Refusals as replies: the line of each and its status, the same in both programs.
#![tactic(auto)]

ghost use Rattle.std.specs.Prelude.{◌≡◌, IfOk};
ghost use Rattle.refusal_replies.specs.Refused.{RepliesRefusal, status_of_refusal};

pub use io_traits::{Sink, Source};
pub use read_write_all::ReadError;
pub use refusal_lines::Refusal;
use refusal_lines::refusal_text;
use std::alloc::{AllocError, Global};
pub use whole_call::{AnswerStatus, CallStatus, Reply, give, read_up_to};

fn status_of(refusal: Refusal) -> AnswerStatus
    ensures { result ≡ status_of_refusal refusal }
{
    match refusal {
        Refusal::Words => AnswerStatus::Words,
        Refusal::Source(_) => AnswerStatus::Source,
        Refusal::Line(_) => AnswerStatus::Trace,
        Refusal::Entry(_) => AnswerStatus::Trace,
        Refusal::Image(_) => AnswerStatus::Image,
    }
}

/// The refusal of command-line arguments, or of an input.
pub fn refused(alloc: Global, refusal: Refusal) -> Result<Reply, AllocError>
    ensures { IfOk result (RepliesRefusal refusal) }
{
    let text = refusal_text(alloc, refusal)?;
    Ok(Reply::of_text(status_of(refusal), text))
}
