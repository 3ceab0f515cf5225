// Work and span, and what the end line counts.

ghost use Rattle.std.specs.Prelude.{◌≡◌, ◌++◌, OnOk, IfOk, string_bytes};
ghost use Rattle.log_report.specs.Ends.{hundredths, hundredths_text};
ghost use Rattle.log_json.specs.Pieces.{left_piece, counts_piece, all_counts_piece, cost_piece, ends_piece};

use crate::heaps::add_heaps;
use crate::value::{add, add_number};
use json_text::add_word;
use log_report::{LogReport, parallelism_text, racing_locations};
use std::alloc::{AllocError, Global};

// The strands left out of a cut log, after a comma.
fn left_piece(alloc: Global, left_out: Option<usize>) -> Result<String, AllocError>
    ensures { IfOk result (λ text. string_bytes text ≡ left_piece left_out) }
{
    match left_out {
        None => Ok(String::new(alloc)),
        Some(count) => format!(in alloc; ",\"cut\":{count}"),
    }
}

// How many findings of each kind there are.
fn counts_piece(
    alloc: Global,
    races: u128,
    reads: usize,
    uses: usize,
    stale: usize,
) -> Result<String, AllocError>
    ensures { IfOk result (λ text. string_bytes text ≡ counts_piece races reads uses stale) }
{
    format!(in alloc; "{{\"races\":{races},\"reads\":{reads},\"uses\":{uses},\"stale\":{stale}")
}

// Adds work and span.
fn add_cost(alloc: Global, text: &mut Vec<u8>, work: u64, span: u64) -> Result<(), AllocError>
    ensures { OnOk result (text.new.items ≡ text.old.items ++ cost_piece work span (hundredths_text (hundredths work span))) }
{
    let quotient = parallelism_text(alloc, work, span)?;
    add_number(alloc, text, ",\"work\":", work as u128)?;
    add_number(alloc, text, ",\"span\":", span as u128)?;
    add(text, ",\"parallelism\":")?;
    add_word(text, quotient.as_bytes())
}

// Adds how many findings of each kind there are, and the strands left out.
fn add_counts(alloc: Global, text: &mut Vec<u8>, report: &LogReport) -> Result<(), AllocError>
    ensures { OnOk result (text.new.items ≡ text.old.items ++ all_counts_piece report.now) }
{
    let counts = counts_piece(
        alloc,
        racing_locations(report.races.as_slice()),
        report.entangled_reads.len(),
        report.entangled_uses.len(),
        report.stale_uses.len(),
    )?;
    let left = left_piece(alloc, report.left_out)?;
    add(text, counts.as_str())?;
    add(text, left.as_str())
}

/// Adds work and span, heaps if they are told, and what the end line counts.
pub(crate) fn add_ends(
    alloc: Global,
    text: &mut Vec<u8>,
    report: &LogReport,
) -> Result<(), AllocError>
    ensures { OnOk result (text.new.items ≡ text.old.items ++ ends_piece report.now) }
{
    add_cost(alloc, text, report.work, report.span)?;
    add_heaps(alloc, text, &report.heaps)?;
    add(text, ",\"end\":")?;
    add_counts(alloc, text, report)?;
    add(text, "}")
}
