// What is written of the words of a call.

ghost use Rattle.std.specs.Prelude.{IfOk};
ghost use Rattle.whole_call.specs.Output.{Says};
ghost use Rattle.log_command.specs.Words.{usage, words_line};

use std::alloc::{AllocError, Global};
use whole_call::{AnswerStatus, Reply};

/// The refusal of words.
pub(crate) fn words_refusal(alloc: Global) -> Result<Reply, AllocError>
    ensures { IfOk result (Says AnswerStatus.Words words_line) }
{
    let text = format!(in alloc; "end: words refused\n")?;
    Ok(Reply::of_text(AnswerStatus::Words, text))
}

/// How the program is called.
pub(crate) fn usage(alloc: Global) -> Result<Reply, AllocError>
    ensures { IfOk result (Says AnswerStatus.Done usage) }
{
    let text = format!(in alloc;
        "usage: hhlog check FILE.. [--all] [--json] [--heaps] [--blocks N ..]\n"
    )?;
    Ok(Reply::of_text(AnswerStatus::Done, text))
}
