// The answer of `races`.

ghost use Rattle.std.specs.Prelude.{◌≡◌, IfOk};
ghost use Rattle.race_report.specs.Text.{races_text};
ghost use Rattle.command_answers.specs.Answers.{IsText, IsRaceAnswer, AnswersRaces, AnswersTrace, races_status};

use crate::answer::{Answer, CommandStatus};
use crate::refusals::{bytes_alone, refused};
use race_report::{Listed, Race, Settings, races_of_run, races_text};
use refusal_lines::{OrNoMemory, Refusal, TraceInput, read_trace_input};
use std::alloc::{AllocError, Global};

// The status for these races.
fn status_of(races: &[Race]) -> CommandStatus
    ensures { result ≡ races_status races.now }
{
    match races {
        [] => CommandStatus::Done,
        _ => CommandStatus::Races,
    }
}

// The answer for these races.
fn answer_found(alloc: Global, races: &[Race]) -> Result<Answer, AllocError>
    ensures { IfOk result (IsText (races_status races.now) (races_text races.now)) }
{
    let text = races_text(alloc, races)?;
    let status = status_of(races);
    Ok(bytes_alone(alloc, status, Listed::from_vec(text)))
}

// Finds the races of a trace.
fn answer_trace(alloc: Global, settings: Settings, read: &TraceInput) -> Result<Answer, AllocError>
    ensures { IfOk result (AnswersTrace IsRaceAnswer settings read.now) }
{
    let TraceInput { program, trace } = read;
    let settings = settings.with_version(trace.version);
    let journal = trace.entries.as_slice();
    match races_of_run(alloc, program, settings, journal) {
        Ok(races) => answer_found(alloc, races.as_slice()),
        Err(OrNoMemory::Refused(entry)) => refused(alloc, Refusal::Entry(entry)),
        Err(OrNoMemory::NoMemory) => Err(AllocError),
    }
}

/// Reads a program with a trace, and finds the races.
pub fn answer_races(alloc: Global, settings: Settings, input: &[u8]) -> Result<Answer, AllocError>
    ensures { IfOk result (AnswersRaces settings input.now) }
{
    match read_trace_input(alloc, input) {
        Ok(read) => answer_trace(alloc, settings, &read),
        Err(OrNoMemory::Refused(fault)) => refused(alloc, Refusal::of_input(fault)),
        Err(OrNoMemory::NoMemory) => Err(AllocError),
    }
}
