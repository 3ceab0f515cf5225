// Finds what is reported of a log.

ghost use Rattle.std.specs.Prelude.{◌≡◌, Bool, None, IfOk, IfErr};
ghost use Rattle.log_left.specs.below.fork_graph.{Extent};
ghost use Rattle.log_left.specs.below.log_form.{events_of, log_fault};
ghost use Rattle.log_left.specs.below.log_pieces.{events_of_pieces};
ghost use Rattle.log_left.specs.below.log_tasks.{IsLog};
ghost use Rattle.log_findings.specs.Errors.{LogIsTooLarge};
ghost use Rattle.log_findings.specs.Reported.{walk_of, order_of, AreFindingsOf, HasCost, IsLeftOutIf, AreHeapsIf, IsReportOf, IsToldInOrder};

use crate::error::ReportError;
use log_births::find_uses;
use log_heaps::{SerialWalk, log_heaps};
use log_left::{LogPiece, LogTasks, left_out};
use log_races::log_races;
use log_report::{LogHeaps, LogReport, in_order};
use log_told::{ToldFindings, tell};
use log_weights::{Cost, work_and_span};
use plain_vec::Listed;
use std::alloc::{AllocError, Global};

/// Locations may have so many stretches.
const MOST_STRETCHES: usize = usize::MAX;

// What is told of the races and uses of a log.
fn found(
    alloc: Global,
    texts: &[Listed<u8>],
    pieces: &[LogPiece],
    tasks: &LogTasks,
    walk: &SerialWalk,
) -> Result<ToldFindings, ReportError>
    requires pieces { events_of_pieces texts.now pieces.now ≡ events_of texts.now }
    requires whole { log_fault texts.now ≡ None }
    requires tasks { (extent : Extent) × IsLog (events_of texts.now) extent tasks.now }
    requires walk { walk.now ≡ walk_of tasks.now }
    ensures found { IfOk result (AreFindingsOf texts.now tasks.now) }
    ensures refused { IfErr result (λ cause. (asked : Bool) → LogIsTooLarge asked texts.now tasks.now cause) }
{
    let scan = log_races(alloc, texts, pieces, tasks, walk, MOST_STRETCHES)?;
    let findings = find_uses(alloc, texts, pieces, tasks, walk)?;
    Ok(tell(alloc, texts, scan.races(), &findings)?)
}

// How many strands are left out, if the log was cut off.
fn left_out_if(
    alloc: Global,
    texts: &[Listed<u8>],
    pieces: &[LogPiece],
    tasks: &LogTasks,
    walk: &SerialWalk,
    is_cut: bool,
) -> Result<Option<usize>, AllocError>
    requires pieces { events_of_pieces texts.now pieces.now ≡ events_of texts.now }
    requires walk { walk.now ≡ walk_of tasks.now }
    ensures { IfOk result (IsLeftOutIf is_cut texts.now tasks.now) }
{
    if !is_cut {
        return Ok(None);
    }
    Ok(Some(left_out(alloc, texts, pieces, tasks, walk.order())?))
}

// What a manager of hierarchical heaps would meet, if that is asked for.
fn heaps_if(
    alloc: Global,
    texts: &[Listed<u8>],
    pieces: &[LogPiece],
    tasks: &LogTasks,
    walk: &SerialWalk,
    asked: bool,
) -> Result<Option<LogHeaps>, ReportError>
    requires pieces { events_of_pieces texts.now pieces.now ≡ events_of texts.now }
    requires whole { log_fault texts.now ≡ None }
    requires tasks { (extent : Extent) × IsLog (events_of texts.now) extent tasks.now }
    requires walk { walk.now ≡ walk_of tasks.now }
    ensures heaps { IfOk result (AreHeapsIf asked texts.now tasks.now) }
    ensures refused { IfErr result (LogIsTooLarge asked texts.now tasks.now) }
{
    if !asked {
        return Ok(None);
    }
    Ok(Some(log_heaps(alloc, texts, pieces, tasks, walk)?))
}

// The report.
fn report_of(
    told: ToldFindings,
    cost: Cost,
    heaps: Option<LogHeaps>,
    left_out: Option<usize>,
) -> LogReport
    ensures races { IsToldInOrder told.races result.races }
    ensures rest { result ≡ record { races = result.races; entangled_reads = told.entangled_reads; entangled_uses = told.entangled_uses; stale_uses = told.stale_uses; work = cost.work; span = cost.span; heaps = heaps; left_out = left_out } }
{
    let ToldFindings {
        races,
        entangled_reads,
        entangled_uses,
        stale_uses,
    } = told;
    LogReport {
        races: in_order(races),
        entangled_reads,
        entangled_uses,
        stale_uses,
        work: cost.work,
        span: cost.span,
        heaps,
        left_out,
    }
}

// What is reported of a log, by a walk over its graph, with heaps if they are asked for.
fn report_walk(
    alloc: Global,
    texts: &[Listed<u8>],
    pieces: &[LogPiece],
    tasks: &LogTasks,
    walk: &SerialWalk,
    is_cut: bool,
    asked: bool,
) -> Result<LogReport, ReportError>
    requires pieces { events_of_pieces texts.now pieces.now ≡ events_of texts.now }
    requires whole { log_fault texts.now ≡ None }
    requires tasks { (extent : Extent) × IsLog (events_of texts.now) extent tasks.now }
    requires walk { walk.now ≡ walk_of tasks.now }
    ensures report { IfOk result (IsReportOf texts.now tasks.now is_cut asked) }
    ensures refused { IfErr result (LogIsTooLarge asked texts.now tasks.now) }
{
    let cost = work_and_span(alloc, texts, pieces, tasks, walk)?;
    let left = left_out_if(alloc, texts, pieces, tasks, walk, is_cut)?;
    let heaps = heaps_if(alloc, texts, pieces, tasks, walk, asked)?;
    let told = found(alloc, texts, pieces, tasks, walk)?;
    Ok(report_of(told, cost, heaps, left))
}

/// What is reported of a log that has no faulty line and no task at fault, by its pieces and its tasks, with heaps if they
/// are asked for.
pub fn report_log(
    alloc: Global,
    texts: &[Listed<u8>],
    pieces: &[LogPiece],
    tasks: &LogTasks,
    is_cut: bool,
    asked: bool,
) -> Result<LogReport, ReportError>
    requires pieces { events_of_pieces texts.now pieces.now ≡ events_of texts.now }
    requires whole { log_fault texts.now ≡ None }
    requires tasks { (extent : Extent) × IsLog (events_of texts.now) extent tasks.now }
    ensures report { IfOk result (IsReportOf texts.now tasks.now is_cut asked) }
    ensures refused { IfErr result (LogIsTooLarge asked texts.now tasks.now) }
{
    let walk = SerialWalk::new(alloc, &tasks.turns)?;
    report_walk(alloc, texts, pieces, tasks, &walk, is_cut, asked)
}
