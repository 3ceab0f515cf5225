// The line of a refusal.

ghost use Rattle.std.specs.Prelude.{◌≡◌, IfOk, string_bytes};
ghost use Rattle.refusal_lines.specs.Refusals.{image_line, refusal_line, source_line};

use crate::refusal::Refusal;
use image_check::ImageFault;
use program_reader::TextFault;
use run_report::refused_text;
use std::alloc::{AllocError, Global};

// The line for a text that isn't a program.
fn source_text(alloc: Global, refused: TextFault) -> Result<String, AllocError>
    ensures { IfOk result (λ text. string_bytes text ≡ source_line refused) }
{
    let cause = refused.cause.text();
    format!(in alloc; "end: source refused line {} {cause}\n", refused.line)
}

// The line for a text that isn't an image.
fn image_text(alloc: Global, fault: ImageFault) -> Result<String, AllocError>
    ensures { IfOk result (λ text. string_bytes text ≡ image_line fault) }
{
    let cause = fault.cause.text();
    format!(in alloc; "end: image refused line {} {cause}\n", fault.line)
}

/// The line of a refusal, with its line feed.
pub fn refusal_text(alloc: Global, refusal: Refusal) -> Result<String, AllocError>
    ensures { IfOk result (λ text. string_bytes text ≡ refusal_line refusal) }
{
    match refusal {
        Refusal::Words => format!(in alloc; "end: words refused\n"),
        Refusal::Source(refused) => source_text(alloc, refused),
        Refusal::Line(line) => format!(in alloc; "end: trace refused line {line}\n"),
        Refusal::Entry(refused) => refused_text(alloc, refused),
        Refusal::Image(fault) => image_text(alloc, fault),
    }
}
