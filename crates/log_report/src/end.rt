// The end line.

ghost use Rattle.std.specs.Prelude.{◌≡◌, ◌≤◌, ◌^◌, IfOk, sum_by, string_bytes};
ghost use Rattle.log_report.specs.Told.{locations_of, racing_locations};
ghost use Rattle.log_report.specs.Ends.{left_text, counts_text, end_line};

use crate::told::{LogReport, ToldRace};
use std::alloc::{AllocError, Global};

/// How many locations race.
pub fn racing_locations(races: &[ToldRace]) -> u128
    ensures { result ≡ racing_locations races.now }
{
    let mut count = 0;
    for race in races {
        count += race.locations() as u128;
    }
    count
}

// What was left out of a log that was cut off.
fn left_text(alloc: Global, left_out: Option<usize>) -> Result<String, AllocError>
    ensures { IfOk result (λ text. string_bytes text ≡ left_text left_out) }
{
    match left_out {
        None => Ok(String::new(alloc)),
        Some(count) => format!(in alloc; " cut {count}"),
    }
}

fn counts_text(
    alloc: Global,
    races: u128,
    reads: usize,
    uses: usize,
    stale: usize,
) -> Result<String, AllocError>
    ensures { IfOk result (λ text. string_bytes text ≡ counts_text races reads uses stale) }
{
    format!(in alloc; "end: races {races} reads {reads} uses {uses} stale {stale}")
}

/// The end line of a report.
pub(crate) fn end_line(alloc: Global, report: &LogReport) -> Result<String, AllocError>
    ensures { IfOk result (λ text. string_bytes text ≡ end_line report.now) }
{
    let counts = counts_text(
        alloc,
        racing_locations(report.races.as_slice()),
        report.entangled_reads.len(),
        report.entangled_uses.len(),
        report.stale_uses.len(),
    )?;
    let left = left_text(alloc, report.left_out)?;
    format!(in alloc; "{counts}{left}\n")
}
