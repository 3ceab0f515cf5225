// The answer of `check`.

ghost use Rattle.std.specs.Prelude.{◌∷◌, [], codes, IfOk};
ghost use Rattle.race_report.specs.below.run_ledger.{end_line};
ghost use Rattle.command_answers.specs.Answers.{IsText, AnswersCheck};

use crate::answer::{Answer, CommandStatus};
use crate::input::program_in;
use crate::refusals::{refused, text_alone};
use refusal_lines::Refusal;
use std::alloc::{AllocError, Global};

// The answer to a text that is a program.
fn accepted(alloc: Global) -> Result<Answer, AllocError>
    ensures { IfOk result (IsText CommandStatus.Done (end_line (codes "accepted" ∷ []))) }
{
    let text = format!(in alloc; "end: accepted\n")?;
    Ok(text_alone(alloc, CommandStatus::Done, text))
}

/// Whether a text is a program.
pub fn answer_check(alloc: Global, input: &[u8]) -> Result<Answer, AllocError>
    ensures { IfOk result (AnswersCheck input.now) }
{
    match program_in(alloc, input)? {
        Err(fault) => refused(alloc, Refusal::Source(fault)),
        Ok(_) => accepted(alloc),
    }
}
