// What a run says of all schedules.

ghost use Rattle.std.specs.Prelude.{◌≡◌, None, OnOk, IfOk, IfErr};
ghost use Rattle.run_page.specs.below.run_ledger.{refused_as_run};
ghost use Rattle.task_table.specs.below.or_no_memory.{Reports};
ghost use Rattle.schedule_report.specs.Schedules.{verdict_of};
ghost use Rattle.schedule_report.specs.Text.{clashes_text};
ghost use Rattle.refusal_replies.specs.below.whole_call.{Says};
ghost use Rattle.view_core.specs.Shown.{SaysSchedules, ShowsSchedules, not_whole, status_of_verdict};

use refusal_replies::{AnswerStatus, Reply};
use run_page::{Entry, Program, Settings};
use schedule_report::{Clashes, Verdict, clashes_of_run, clashes_text};
use std::alloc::{AllocError, Global};
use task_table::{OrNoMemory, RefusedAt};

fn status_of_verdict(verdict: Verdict) -> AnswerStatus
    ensures { result ≡ status_of_verdict verdict }
{
    match verdict {
        Verdict::MayDiffer(_) => AnswerStatus::Races,
        _ => AnswerStatus::Done,
    }
}

// The refusal of a run that didn't end by the return of main.
fn run_not_whole(alloc: Global) -> Result<Reply, AllocError>
    ensures { IfOk result (Says AnswerStatus.Trace not_whole) }
{
    let text = format!(in alloc; "end: no whole run\n")?;
    Ok(Reply::of_text(AnswerStatus::Trace, text))
}

// Shows the pairs of a whole run.
fn show_clashes(alloc: Global, clashes: &Clashes) -> Result<Reply, AllocError>
    ensures { IfOk result (Says (status_of_verdict (verdict_of clashes.now)) (clashes_text clashes.now)) }
{
    let text = clashes_text(alloc, clashes)?;
    Ok(Reply::of_bytes(status_of_verdict(clashes.verdict()), text))
}

// Shows the pairs of a run, where it is whole.
fn show_answer(alloc: Global, answer: &Option<Clashes>) -> Result<Reply, AllocError>
    ensures { IfOk result (SaysSchedules answer.now) }
{
    match answer {
        None => run_not_whole(alloc),
        Some(clashes) => show_clashes(alloc, clashes),
    }
}

/// Shows what the run of a journal says of all schedules.
pub(crate) fn show_schedules(
    alloc: Global,
    program: &Program,
    settings: Settings,
    journal: &[Entry],
) -> Result<Reply, OrNoMemory<RefusedAt>>
    ensures whole { OnOk result (refused_as_run program.now settings journal.now ≡ None) }
    ensures shown { IfOk result (ShowsSchedules program.now settings journal.now) }
    ensures fails { IfErr result (Reports (refused_as_run program.now settings journal.now)) }
{
    let answer = clashes_of_run(alloc, program, settings, journal)?;
    Ok(show_answer(alloc, &answer)?)
}
