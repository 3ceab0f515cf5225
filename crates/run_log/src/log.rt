// A run as a log.

ghost use Rattle.std.specs.Prelude.{◌≡◌, ◌++◌, None, Some, OnOk, IfOk, IfErr};
ghost use Rattle.run_trace.specs.below.or_no_memory.{Reports};
ghost use Rattle.run_journal.specs.below.run_ledger.{end_of, refused_as_run};
ghost use Rattle.run_log.specs.Writing.{written, all_written};
ghost use Rattle.run_log.specs.Lines.{lines_from};
ghost use Rattle.run_log.specs.Log.{end_lines, lines_of, log_of};

use crate::lines::take_entries;
use crate::sites::add_sites;
use crate::write::add_line;
use hh_lang::Program;
use hh_model::{End, Machine};
use log_lines::LogLine;
use run_journal::{RefusedAt, RunEnd, model_replay};
use run_trace::{Entry, OrNoMemory, Settings};
use std::alloc::{AllocError, Global};

// Adds the lines of a journal's entries.
fn add_run(
    alloc: Global,
    text: &mut Vec<u8>,
    program: &Program,
    settings: Settings,
    journal: &[Entry],
) -> Result<(), AllocError>
    ensures { OnOk result (text.new.items ≡ text.old.items ++ all_written (lines_of program.now settings journal.now)) }
{
    let mut machine = Machine::start(alloc, program, settings.version().field_limit())?;
    take_entries(alloc, text, program, &mut machine, journal)
}

// Adds the log's end if the run ended by the return of main.
fn add_end(alloc: Global, text: &mut Vec<u8>, end: RunEnd) -> Result<(), AllocError>
    ensures { OnOk result (text.new.items ≡ text.old.items ++ all_written (end_lines (Some end))) }
{
    match end {
        RunEnd::Machine(End::Done) => add_line(alloc, text, &LogLine::End),
        _ => Ok(()),
    }
}

// Builds the log of a run that ended so.
#[tactic(auto, unfolding(crate::specs::Log::log_of))]
fn build(
    alloc: Global,
    program: &Program,
    settings: Settings,
    journal: &[Entry],
    end: RunEnd,
) -> Result<Vec<u8>, AllocError>
    ensures { end_of program.now settings journal.now ≡ Some end → IfOk result (λ text. text.items ≡ log_of program.now settings journal.now) }
{
    let mut text = Vec::new(alloc);
    add_line(alloc, &mut text, &LogLine::Version)?;
    add_sites(alloc, &mut text, program)?;
    add_run(alloc, &mut text, program, settings, journal)?;
    add_end(alloc, &mut text, end)?;
    Ok(text)
}

/// The log of the journal of a whole run, in one file: each task's strands with what they do to objects, a block for each
/// object and a location for each field. A journal without an end is refused, as short.
pub fn log_text(
    alloc: Global,
    program: &Program,
    settings: Settings,
    journal: &[Entry],
) -> Result<Vec<u8>, OrNoMemory<RefusedAt>>
    ensures whole { OnOk result (refused_as_run program.now settings journal.now ≡ None) }
    ensures text { IfOk result (λ text. text.items ≡ log_of program.now settings journal.now) }
    ensures fails { IfErr result (Reports (refused_as_run program.now settings journal.now)) }
{
    let end = model_replay(alloc, program, settings, journal)?;
    Ok(build(alloc, program, settings, journal, end)?)
}
