// What is written of a log.

ghost use Rattle.std.specs.Prelude.{◌≡◌, ◌⊎◌, None, IfOk, map, string_bytes};
ghost use Rattle.log_findings.specs.below.log_form.{events_of, is_cut, log_fault};
ghost use Rattle.log_pieces.specs.Pieces.{events_of_pieces};
ghost use Rattle.log_tasks.specs.Log.{IsLog};
ghost use Rattle.log_replies.specs.Shown.{extent_of, log_extent, RefusesSize, ReportsFindings, ShowsTasks, ShowsLog};

use crate::report::show_report;
use crate::size::size_refusal;
use log_findings::{Extent, ReportError, report_log};
use log_json::Listed;
use log_pieces::{CutLog, LogPiece, OrNoMemory, cut_log};
use log_refusals::{line_refusal, task_refusal};
use log_request::LogView;
use log_tasks::{LogTasks, log_tasks};
use std::alloc::{AllocError, Global};
use whole_call::Reply;

// How much of its run a log has.
fn extent_of(is_cut: bool) -> Extent
    ensures { result ≡ extent_of is_cut }
{
    if is_cut { Extent::Cut } else { Extent::Whole }
}

// What is written of a log without a fault.
fn show_tasks(
    alloc: Global,
    texts: &[Listed<u8>],
    pieces: &[LogPiece],
    tasks: &LogTasks,
    cut: bool,
    view: &LogView,
) -> Result<Reply, AllocError>
    requires whole { log_fault texts.now ≡ None }
    requires pieces { events_of_pieces texts.now pieces.now ≡ events_of texts.now }
    requires extent { cut ≡ is_cut texts.now }
    requires tasks { IsLog (events_of texts.now) (log_extent texts.now) tasks.now }
    ensures { IfOk result (λ reply. RefusesSize texts.now view.now reply ⊎ ReportsFindings texts.now view.now reply) }
{
    match report_log(alloc, texts, pieces, tasks, cut, view.heaps) {
        Ok(report) => show_report(alloc, texts, view, report),
        Err(ReportError::NoMemory) => Err(AllocError),
        Err(cause) => size_refusal(alloc, cause),
    }
}

// What is written of a log without a faulty line.
fn show_pieces(
    alloc: Global,
    names: &[String],
    texts: &[Listed<u8>],
    pieces: &[LogPiece],
    cut: bool,
    view: &LogView,
) -> Result<Reply, AllocError>
    requires whole { log_fault texts.now ≡ None }
    requires pieces { events_of_pieces texts.now pieces.now ≡ events_of texts.now }
    requires extent { cut ≡ is_cut texts.now }
    ensures { IfOk result (ShowsTasks (map string_bytes names.now) texts.now view.now) }
{
    match log_tasks(alloc, texts, pieces, extent_of(cut)) {
        Ok(tasks) => show_tasks(alloc, texts, pieces, &tasks, cut, view),
        Err(OrNoMemory::Refused(fault)) => task_refusal(alloc, names, texts, fault),
        Err(OrNoMemory::NoMemory) => Err(AllocError),
    }
}

/// What is written of a log, whose files have these names and texts.
pub fn show_log(
    alloc: Global,
    names: &[String],
    texts: &[Listed<u8>],
    view: &LogView,
) -> Result<Reply, AllocError>
    ensures { IfOk result (ShowsLog (map string_bytes names.now) texts.now view.now) }
{
    match cut_log(alloc, texts) {
        Ok(CutLog { pieces, is_cut }) => {
            show_pieces(alloc, names, texts, pieces.as_slice(), is_cut, view)
        }
        Err(OrNoMemory::Refused(found)) => line_refusal(alloc, names, found),
        Err(OrNoMemory::NoMemory) => Err(AllocError),
    }
}
