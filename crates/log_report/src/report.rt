// The text of a report.

ghost use Rattle.std.specs.Prelude.{◌≡◌, ◌++◌, IfOk, OnOk};
ghost use Rattle.log_sites.specs.Names.{name_of};
ghost use Rattle.log_report.specs.LogReport.{races_text, uses_text, ends_text, report_text};

use crate::cost::cost_line;
use crate::end::end_line;
use crate::heaps::add_heaps;
use crate::label::add;
use crate::locations::add_all_lines;
use crate::races::add_race_lines;
use crate::told::{LogReport, ToldRace};
use crate::uses::{UseFault, add_use_lines};
use log_sites::SiteNames;
use std::alloc::{AllocError, Global};

/// How races are told.
#[derive(Clone, Copy)]
pub enum Detail {
    /// On a line for each block and pair of kinds and sites.
    Merged,
    /// On a line for each location.
    Locations,
}

// Adds the lines of races.
fn add_races(
    alloc: Global,
    text: &mut Vec<u8>,
    names: &SiteNames,
    detail: Detail,
    races: &[ToldRace],
) -> Result<(), AllocError>
    ensures { OnOk result (text.new.items ≡ text.old.items ++ races_text (name_of names.now) detail races.now) }
{
    match detail {
        Detail::Merged => add_race_lines(alloc, text, names, races),
        Detail::Locations => add_all_lines(alloc, text, names, races),
    }
}

// Adds the lines of entangled and stale uses.
fn add_uses(
    alloc: Global,
    text: &mut Vec<u8>,
    names: &SiteNames,
    report: &LogReport,
) -> Result<(), AllocError>
    ensures { OnOk result (text.new.items ≡ text.old.items ++ uses_text (name_of names.now) report.now) }
{
    let reads = report.entangled_reads.as_slice();
    let uses = report.entangled_uses.as_slice();
    let stale = report.stale_uses.as_slice();
    add_use_lines(alloc, text, names, UseFault::EntangledRead, reads)?;
    add_use_lines(alloc, text, names, UseFault::EntangledUse, uses)?;
    add_use_lines(alloc, text, names, UseFault::StaleUse, stale)
}

// Adds the lines on work and span, on heaps, and the end line.
fn add_ends(alloc: Global, text: &mut Vec<u8>, report: &LogReport) -> Result<(), AllocError>
    ensures { OnOk result (text.new.items ≡ text.old.items ++ ends_text report.now) }
{
    let cost = cost_line(alloc, report.work, report.span)?;
    add(text, cost.as_str())?;
    add_heaps(alloc, text, &report.heaps)?;
    let end = end_line(alloc, report)?;
    add(text, end.as_str())
}

/// The text of a report, whose races come in ascending order of their blocks and locations.
pub fn report_text(
    alloc: Global,
    names: &SiteNames,
    detail: Detail,
    report: &LogReport,
) -> Result<Vec<u8>, AllocError>
    ensures { IfOk result (λ text. text.items ≡ report_text (name_of names.now) detail report.now) }
{
    let mut text = Vec::new(alloc);
    add_races(alloc, &mut text, names, detail, report.races.as_slice())?;
    add_uses(alloc, &mut text, names, report)?;
    add_ends(alloc, &mut text, report)?;
    Ok(text)
}
