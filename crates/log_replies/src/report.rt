// The report of a log as a reply.

ghost use Rattle.std.specs.Prelude.{◌≡◌, IfOk};
ghost use Rattle.whole_call.specs.Output.{Says};
ghost use Rattle.log_json.specs.below.log_sites.{name_of, site_name};
ghost use Rattle.log_replies.specs.Blocks.{of_blocks};
ghost use Rattle.log_replies.specs.Shown.{view_text};
ghost use Rattle.log_replies.specs.Status.{is_quiet, status_if_cut, status_of};

use crate::blocks::of_blocks;
use log_json::{Listed, SiteNames, report_json, site_names};
use log_report::{LogReport, report_text};
use log_request::{LogView, ReportForm};
use std::alloc::{AllocError, Global};
use whole_call::{AnswerStatus, Reply};

// Whether nothing was found.
fn is_quiet(report: &LogReport) -> bool
    ensures { result ≡ is_quiet report.now }
{
    report.races.len() == 0
        && report.entangled_reads.len() == 0
        && report.entangled_uses.len() == 0
        && report.stale_uses.len() == 0
}

fn status_if_cut(left_out: Option<usize>) -> AnswerStatus
    ensures { result ≡ status_if_cut left_out }
{
    match left_out {
        None => AnswerStatus::Done,
        Some(_) => AnswerStatus::CutOff,
    }
}

// The status of a report.
fn status_of(report: &LogReport) -> AnswerStatus
    ensures { result ≡ status_of report.now }
{
    if is_quiet(report) {
        status_if_cut(report.left_out)
    } else {
        AnswerStatus::Races
    }
}

// The text of a report.
fn view_text(
    alloc: Global,
    names: &SiteNames,
    view: &LogView,
    report: &LogReport,
) -> Result<Vec<u8>, AllocError>
    ensures { IfOk result (λ text. text.items ≡ view_text (name_of names.now) view.now report.now) }
{
    match view.form {
        ReportForm::Lines => report_text(alloc, names, view.detail, report),
        ReportForm::Json => report_json(alloc, names, view.detail, report),
    }
}

// The names of sites by which a report is written. Where nothing was found no site is named, and the texts aren't read.
fn names_for(
    alloc: Global,
    texts: &[Listed<u8>],
    view: &LogView,
    report: &LogReport,
) -> Result<SiteNames, AllocError>
    ensures { IfOk result (λ names. view_text (name_of names) view.now report.now ≡ view_text (site_name texts.now) view.now report.now) }
{
    if is_quiet(report) {
        return site_names(alloc, &[]);
    }
    site_names(alloc, texts)
}

/// What is shown of the report of a log, whose files have these texts.
pub(crate) fn show_report(
    alloc: Global,
    texts: &[Listed<u8>],
    view: &LogView,
    report: LogReport,
) -> Result<Reply, AllocError>
    ensures { IfOk result (Says (status_of (of_blocks view.now.blocks report)) (view_text (site_name texts.now) view.now (of_blocks view.now.blocks report))) }
{
    let report = of_blocks(report, view.blocks.as_slice());
    let names = names_for(alloc, texts, view, &report)?;
    let text = view_text(alloc, &names, view, &report)?;
    Ok(Reply::of_bytes(status_of(&report), text))
}
