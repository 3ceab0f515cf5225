// The answer of `verify`.

ghost use Rattle.std.specs.Prelude.{◌≡◌, ◌∷◌, [], codes, IfOk};
ghost use Rattle.std.specs.String.{string_bytes};
ghost use Rattle.std.specs.Fmt.{decimal};
ghost use Rattle.race_report.specs.below.run_ledger.{end_line};
ghost use Rattle.command_answers.specs.Answers.{AnswersVerify};

use crate::answer::{Answer, CommandStatus};
use crate::refusals::{refused, text_alone};
use heap_picture::{OrNoMemory, verify};
use refusal_lines::Refusal;
use std::alloc::{AllocError, Global};

// The end line of an image with this number of objects.
fn verified_line(alloc: Global, objects: u64) -> Result<String, AllocError>
    ensures { IfOk result (λ text. string_bytes text ≡ end_line (codes "verified" ∷ decimal objects ∷ [])) }
{
    format!(in alloc; "end: verified {objects}\n")
}

/// Checks an image.
pub fn answer_verify(alloc: Global, input: &[u8]) -> Result<Answer, AllocError>
    ensures { IfOk result (AnswersVerify input.now) }
{
    match verify(alloc, input) {
        Ok(objects) => {
            let text = verified_line(alloc, objects)?;
            Ok(text_alone(alloc, CommandStatus::Done, text))
        }
        Err(OrNoMemory::Refused(fault)) => refused(alloc, Refusal::Image(fault)),
        Err(OrNoMemory::NoMemory) => Err(AllocError),
    }
}
