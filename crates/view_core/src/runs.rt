// Views of runs.

ghost use Rattle.std.specs.Prelude.{◌≡◌, None, OnOk, IfOk, IfErr};
ghost use Rattle.run_page.specs.below.run_ledger.{refused_as_run};
ghost use Rattle.task_table.specs.below.or_no_memory.{Reports};
ghost use Rattle.refusal_replies.specs.below.whole_call.{Says};
ghost use Rattle.view_core.specs.Shown.{ShowsJournal, ShowsTrace, ShowsRun};

use crate::races::show_races;
use crate::schedules::show_schedules;
use refusal_replies::{AnswerStatus, Refusal, Reply, refused};
use run_log::log_text;
use run_page::{Entry, OrNoMemory, Program, Settings, TraceInput, read_trace_input};
use std::alloc::{AllocError, Global};
use task_table::{RefusedAt, table_text, timeline_text};
use view_arguments::RunView;

// A picture of a run.
fn picture(text: Vec<u8>) -> Reply
    ensures { Says AnswerStatus.Done text.items result }
{
    Reply::of_bytes(AnswerStatus::Done, text)
}

// Shows a view of a journal of an input's program.
fn show_journal(
    alloc: Global,
    view: RunView,
    input: &[u8],
    program: &Program,
    settings: Settings,
    journal: &[Entry],
) -> Result<Reply, OrNoMemory<RefusedAt>>
    ensures whole { OnOk result (refused_as_run program.now settings journal.now ≡ None) }
    ensures shown { IfOk result (ShowsJournal view input.now program.now settings journal.now) }
    ensures fails { IfErr result (Reports (refused_as_run program.now settings journal.now)) }
{
    match view {
        RunView::Timeline => Ok(picture(timeline_text(alloc, program, settings, journal)?)),
        RunView::Tasks => Ok(picture(table_text(alloc, program, settings, journal)?)),
        RunView::Schedules => show_schedules(alloc, program, settings, journal),
        RunView::Races => show_races(alloc, input, program, settings, journal),
        RunView::Log => Ok(picture(log_text(alloc, program, settings, journal)?)),
    }
}

// Shows the run of a trace, which was read from an input.
fn show_trace(
    alloc: Global,
    view: RunView,
    settings: Settings,
    input: &[u8],
    read: &TraceInput,
) -> Result<Reply, AllocError>
    ensures { IfOk result (ShowsTrace view settings input.now read.now) }
{
    let TraceInput { program, trace } = read;
    let settings = settings.with_version(trace.version);
    let journal = trace.entries.as_slice();
    match show_journal(alloc, view, input, program, settings, journal) {
        Ok(shown) => Ok(shown),
        Err(OrNoMemory::Refused(entry)) => refused(alloc, Refusal::Entry(entry)),
        Err(OrNoMemory::NoMemory) => Err(AllocError),
    }
}

/// Shows the run of a program with its trace.
pub(crate) fn show_run(
    alloc: Global,
    view: RunView,
    settings: Settings,
    input: &[u8],
) -> Result<Reply, AllocError>
    ensures { IfOk result (ShowsRun view settings input.now) }
{
    match read_trace_input(alloc, input) {
        Ok(read) => show_trace(alloc, view, settings, input, &read),
        Err(OrNoMemory::Refused(fault)) => refused(alloc, Refusal::of_input(fault)),
        Err(OrNoMemory::NoMemory) => Err(AllocError),
    }
}
