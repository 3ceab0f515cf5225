// The report as a JSON object.

ghost use Rattle.std.specs.Prelude.{◌≡◌, ◌++◌, IfOk, OnOk};
ghost use Rattle.log_sites.specs.Names.{name_of};
ghost use Rattle.log_json.specs.Values.{report_json};
ghost use Rattle.log_json.specs.Pieces.{array_piece, array_name, races_piece, named_uses_piece, all_uses_piece, report_piece};

use crate::cost::add_ends;
use crate::races::races_text;
use crate::uses::uses_text;
use crate::value::{add, add_array};
use log_report::{Detail, LogReport, ToldRace, ToldUse, UseFault};
use log_sites::SiteNames;
use std::alloc::{AllocError, Global};

// Adds the array of races.
fn add_races(
    alloc: Global,
    text: &mut Vec<u8>,
    names: &SiteNames,
    detail: Detail,
    races: &[ToldRace],
) -> Result<(), AllocError>
    ensures { OnOk result (text.new.items ≡ text.old.items ++ array_piece (races_piece (name_of names.now) detail races.now)) }
{
    let further = races_text(alloc, names, detail, races)?;
    add_array(text, further.as_slice())
}

fn array_name(fault: UseFault) -> &'static str
    ensures { result.now ≡ array_name fault }
{
    match fault {
        UseFault::EntangledRead => ",\"entangled_reads\":",
        UseFault::EntangledUse => ",\"entangled_uses\":",
        UseFault::StaleUse => ",\"stale_uses\":",
    }
}

// Adds the array of uses of a kind, after its name.
fn add_use_array(
    alloc: Global,
    text: &mut Vec<u8>,
    names: &SiteNames,
    fault: UseFault,
    uses: &[ToldUse],
) -> Result<(), AllocError>
    ensures { OnOk result (text.new.items ≡ text.old.items ++ named_uses_piece (name_of names.now) fault uses.now) }
{
    let further = uses_text(alloc, names, fault, uses)?;
    add(text, array_name(fault))?;
    add_array(text, further.as_slice())
}

// Adds the arrays of entangled and stale uses.
fn add_uses(
    alloc: Global,
    text: &mut Vec<u8>,
    names: &SiteNames,
    report: &LogReport,
) -> Result<(), AllocError>
    ensures { OnOk result (text.new.items ≡ text.old.items ++ all_uses_piece (name_of names.now) report.now) }
{
    let reads = report.entangled_reads.as_slice();
    let uses = report.entangled_uses.as_slice();
    let stale = report.stale_uses.as_slice();
    add_use_array(alloc, text, names, UseFault::EntangledRead, reads)?;
    add_use_array(alloc, text, names, UseFault::EntangledUse, uses)?;
    add_use_array(alloc, text, names, UseFault::StaleUse, stale)
}

// The object and a line feed, piece by piece.
fn report_text(
    alloc: Global,
    names: &SiteNames,
    detail: Detail,
    report: &LogReport,
) -> Result<Vec<u8>, AllocError>
    ensures { IfOk result (λ text. text.items ≡ report_piece (name_of names.now) detail report.now) }
{
    let mut text = Vec::new(alloc);
    add(&mut text, "{\"races\":")?;
    add_races(alloc, &mut text, names, detail, report.races.as_slice())?;
    add_uses(alloc, &mut text, names, report)?;
    add_ends(alloc, &mut text, report)?;
    add(&mut text, "}\n")?;
    Ok(text)
}

/// A report as a JSON object and a line feed. Its races come in ascending order of their blocks and locations.
pub fn report_json(
    alloc: Global,
    names: &SiteNames,
    detail: Detail,
    report: &LogReport,
) -> Result<Vec<u8>, AllocError>
    ensures { IfOk result (λ text. text.items ≡ report_json (name_of names.now) detail report.now) }
{
    report_text(alloc, names, detail, report)
}
