// Work, span and parallelism.

ghost use Rattle.std.specs.Prelude.{◌≡◌, IfOk, string_bytes};
ghost use Rattle.log_report.specs.Ends.{hundredths, hundredths_text, cost_line};

use std::alloc::{AllocError, Global};

// The hundredths of parallelism.
fn hundredths(work: u64, span: u64) -> u128
    ensures { result ≡ hundredths work span }
{
    if span == 0 {
        100
    } else {
        (200 * work as u128 + span as u128) / (2 * span as u128)
    }
}

fn hundredths_text(alloc: Global, count: u128) -> Result<String, AllocError>
    ensures { IfOk result (λ text. string_bytes text ≡ hundredths_text count) }
{
    format!(in alloc; "{}.{}{}", count / 100, count / 10 % 10, count % 10)
}

/// The quotient of work and span in decimals.
pub fn parallelism_text(alloc: Global, work: u64, span: u64) -> Result<String, AllocError>
    ensures { IfOk result (λ text. string_bytes text ≡ hundredths_text (hundredths work span)) }
{
    hundredths_text(alloc, hundredths(work, span))
}

/// The line on them.
pub(crate) fn cost_line(alloc: Global, work: u64, span: u64) -> Result<String, AllocError>
    ensures { IfOk result (λ text. string_bytes text ≡ cost_line work span) }
{
    let quotient = parallelism_text(alloc, work, span)?;
    format!(in alloc; "work {work} span {span} parallelism {quotient}\n")
}
