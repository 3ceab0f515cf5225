// The answer of a run that has ended.

ghost use Rattle.std.specs.Prelude.{◌≡◌, IfOk, IfErr, Some, length, string_bytes};
ghost use Rattle.refusal_lines.specs.below.run_report.{report_part, text_from, trace_part};
ghost use Rattle.journal_replay.specs.below.core_invariant.{IsSharedValue, accounts, without_journal};
ghost use Rattle.run_statistics.specs.JournalCounts.{totals_of};
ghost use Rattle.command_answers.specs.Runs.{IsReplayedRun};

use command_answers::{Answer, CommandStatus, Wanted};
use race_report::{Listed, RunEnd, trace_text};
use refusal_lines::{Extras, end_text, outputs_text, report_text};
use run_statistics::{Counted, LegalCalls, Shared};
use std::alloc::{AllocError, Global};

// The trace of a run, if asked for.
fn trace_lines(alloc: Global, shared: &Shared, asked: bool) -> Result<Vec<u8>, AllocError>
    ensures { IfOk result (λ text. text.items ≡ trace_part asked shared.now.settings.version shared.now.journal.items) }
{
    if asked {
        trace_text(alloc, shared.settings().version(), shared.journal())
    } else {
        Ok(Vec::new(alloc))
    }
}

// The lines of the report, if asked for.
fn report_lines(alloc: Global, counted: &Counted, asked: bool) -> Result<String, AllocError>
    ensures { IfOk result (λ text. string_bytes text ≡ report_part asked (accounts counted.now) (length counted.now.journal.items) (totals_of counted.now)) }
{
    if asked {
        report_text(alloc, counted.report())
    } else {
        Ok(String::new(alloc))
    }
}

// All that is written of a run with this end.
fn run_text(
    alloc: Global,
    counted: &Counted,
    end: RunEnd,
    extras: Extras,
) -> Result<Vec<u8>, AllocError>
    ensures { IfOk result (λ text. text.items ≡ text_from counted.now.settings.version (accounts counted.now) (totals_of counted.now) extras.report extras.trace counted.now.journal.items end) }
{
    let shared = counted.shared();
    let mut text = outputs_text(alloc, shared.outputs())?;
    let report = report_lines(alloc, counted, extras.report)?;
    text.extend_from_slice(report.as_bytes())?;
    let trace = trace_lines(alloc, shared, extras.trace)?;
    text.extend_from_slice(trace.as_slice())?;
    text.extend_from_slice(end_text(alloc, end)?.as_bytes())?;
    Ok(text)
}

/// What is left of a run that ran out of memory.
pub fn amid(shared: Counted) -> Wanted
    ensures amid { result ≡ Wanted.Amid shared.journal.items (without_journal shared) }
    ensures stands { IsSharedValue shared }
{
    shared.stands();
    let (journal, remains) = shared.take_journal();
    Wanted::Amid(journal, remains)
}

/// The answer of a run with this end.
pub fn answer_ended(
    alloc: Global,
    shared: Counted,
    end: RunEnd,
    extras: Extras,
) -> Result<Answer, Wanted>
    requires { (accounts shared).end ≡ Some end }
    ensures answer { IfOk result (IsReplayedRun shared.program shared.settings extras shared.journal.items) }
    ensures wanted { IfErr result (λ w. w ≡ Wanted.Amid shared.journal.items (without_journal shared)) }
{
    shared.stands();
    match run_text(alloc, &shared, end, extras) {
        Err(AllocError) => Err(amid(shared)),
        Ok(text) => {
            let (journal, remains) = shared.take_journal();
            Ok(Answer {
                status: CommandStatus::of_end(end),
                bytes: Listed::from_vec(text),
                journal,
                shared: Some(remains),
            })
        }
    }
}
