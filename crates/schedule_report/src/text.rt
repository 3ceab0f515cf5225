// What is printed about the pairs of a run and about other schedules.

ghost use Rattle.std.specs.Prelude.{◌≡◌, IfOk, string_bytes};
ghost use Rattle.schedule_report.specs.Text.{unordered_line, prints_line, verdict_line, clashes_text};

use crate::data::{Clashes, Verdict};
use race_report::{Race, pair_lines};
use std::alloc::{AllocError, Global};

// The line of two unordered prints.
fn unordered_line(alloc: Global, pair: &Race) -> Result<String, AllocError>
    ensures { IfOk result (λ text. string_bytes text ≡ unordered_line pair.now) }
{
    let (first, first_line) = pair.first;
    let (second, second_line) = pair.second;
    format!(in alloc; "prints unordered tasks {first} {second} lines {first_line} {second_line}\n")
}

// The line on the order of prints.
fn prints_line(alloc: Global, prints: &[Race]) -> Result<String, AllocError>
    ensures { IfOk result (λ text. string_bytes text ≡ prints_line prints.now) }
{
    match prints {
        [] => format!(in alloc; "prints ordered\n"),
        [pair, ..] => unordered_line(alloc, pair),
    }
}

// The line on all schedules.
fn verdict_line(alloc: Global, verdict: Verdict) -> Result<String, AllocError>
    ensures { IfOk result (λ text. string_bytes text ≡ verdict_line verdict) }
{
    match verdict {
        Verdict::Agree => format!(in alloc; "end: every schedule agrees\n"),
        Verdict::AgreeButForPrints => {
            format!(in alloc; "end: every schedule agrees but for the order of prints\n")
        }
        Verdict::MayDiffer(count) => format!(in alloc; "end: schedules may differ {count}\n"),
    }
}

/// A line for each race and for each pair of compare and swaps, a line on the order of prints, and the end line.
pub fn clashes_text(alloc: Global, clashes: &Clashes) -> Result<Vec<u8>, AllocError>
    ensures { IfOk result (λ text. text.items ≡ clashes_text clashes.now) }
{
    let mut text = pair_lines(alloc, "race", clashes.races.as_slice())?;
    let swaps = pair_lines(alloc, "swap", clashes.swaps.as_slice())?;
    let prints = prints_line(alloc, clashes.prints.as_slice())?;
    let verdict = verdict_line(alloc, clashes.verdict())?;
    text.extend_from_slice(swaps.as_slice())?;
    text.extend_from_slice(prints.as_bytes())?;
    text.extend_from_slice(verdict.as_bytes())?;
    Ok(text)
}
