// The faults of the text of a program.

ghost use Rattle.std.specs.Prelude.{IfOk};
ghost use Rattle.view_core.specs.Faults.{ShowsFaults};

use fault_lines::shown_faults;
use refusal_replies::{AnswerStatus, Refusal, Reply, refused};
use std::alloc::{AllocError, Global};

/// Shows the faults of the text of a program.
pub(crate) fn show_faults(alloc: Global, json: bool, text: &[u8]) -> Result<Reply, AllocError>
    ensures { IfOk result (ShowsFaults json text.now) }
{
    match shown_faults(alloc, json, text) {
        Ok(Ok(shown)) => Ok(Reply::of_bytes(AnswerStatus::Done, shown.into_vec())),
        Ok(Err(fault)) => refused(alloc, Refusal::Source(fault)),
        Err(AllocError) => Err(AllocError),
    }
}
