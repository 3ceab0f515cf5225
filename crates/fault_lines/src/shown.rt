// What is shown of a text.

ghost use Rattle.std.specs.Prelude.{◌≡◌, IfOk};
ghost use Rattle.fault_lines.specs.Shown.{shown_as, shown_faults};

use crate::json::faults_json;
use crate::text::faults_text;
use hh_lang::PROGRAM_LIMIT;
use plain_vec::Listed;
use program_reader::{Cause, TextFault};
use std::alloc::{AllocError, Global};
use text_faults::{Fault, text_faults};

// Faults as JSON, or a line for each.
fn shown_as(alloc: Global, json: bool, faults: &[Fault]) -> Result<Vec<u8>, AllocError>
    ensures { IfOk result (λ text. text.items ≡ shown_as json faults.now) }
{
    if json {
        faults_json(alloc, faults)
    } else {
        faults_text(alloc, faults)
    }
}

/// All faults of a text, as a JSON array or as a line for each. A text that is longer than a program may be is refused.
pub fn shown_faults(
    alloc: Global,
    json: bool,
    text: &[u8],
) -> Result<Result<Listed<u8>, TextFault>, AllocError>
    ensures { IfOk result (λ shown. shown ≡ shown_faults json text.now) }
{
    if text.len() > PROGRAM_LIMIT {
        return Ok(Err(TextFault {
            line: 0,
            cause: Cause::TooLong,
        }));
    }
    let faults = text_faults(alloc, text)?;
    let shown = shown_as(alloc, json, faults.as_slice())?;
    Ok(Ok(Listed::from_vec(shown)))
}
