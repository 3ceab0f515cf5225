// The result of a journal: its report, and all that is written of its run.

ghost use Rattle.std.specs.Prelude.{◌≡◌, ◌++◌, Some, None, false, IfOk, OnOk, IfErr};
ghost use Rattle.run_trace.specs.below.or_no_memory.{Reports};
ghost use Rattle.run_ledger.specs.Journals.{opening, ledger_of, first_refused, end_of, refused_as_run};
ghost use Rattle.run_ledger.specs.Text.{end_words, end_line, out_text};
ghost use Rattle.run_report.specs.Totals.{totals_from};
ghost use Rattle.run_report.specs.Written.{report_part, trace_part, text_from};

use crate::counting::{CountedJournal, count, report};
use crate::texts::{end_text, outputs_text, report_text};
use hh_lang::Program;
use plain_vec::Listed;
use run_ledger::{Refused, RefusedAt, RunEnd};
use run_trace::{Entry, OrNoMemory, Settings, Version, trace_text};
use std::alloc::{AllocError, Global};

/// What is written of a run beside its outputs and its end line.
#[derive(Clone, Copy)]
pub struct Extras {
    pub report: bool,
    pub trace: bool,
}

/// How the run of a journal ended, and all that is written of it.
#[derive(Drop)]
pub struct WholeRun {
    pub end: RunEnd,
    /// The outputs, the report and the trace if they are asked for, and the end line.
    pub text: Listed<u8>,
}

// Appends the lines of the report to a text, if it is asked for.
fn add_report(
    alloc: Global,
    text: &mut Vec<u8>,
    asked: bool,
    counted: &CountedJournal,
    turns: usize,
) -> Result<(), AllocError>
    requires { counted.now.book.stopped ≡ false }
    ensures { OnOk result (text.new.items ≡ text.old.items ++ report_part asked counted.now.book.ledger turns counted.now.totals) }
{
    if !asked {
        return Ok(());
    }
    let lines = report_text(alloc, report(&counted.book, turns, counted.totals))?;
    text.extend_from_slice(lines.as_bytes())
}

// Appends the trace to a text, if it is asked for.
fn add_trace(
    alloc: Global,
    text: &mut Vec<u8>,
    asked: bool,
    version: Version,
    journal: &[Entry],
) -> Result<(), AllocError>
    ensures { OnOk result (text.new.items ≡ text.old.items ++ trace_part asked version journal.now) }
{
    if !asked {
        return Ok(());
    }
    let trace = trace_text(alloc, version, journal)?;
    text.extend_from_slice(trace.as_slice())
}

// Appends the end line to a text.
fn add_end(alloc: Global, text: &mut Vec<u8>, end: RunEnd) -> Result<(), AllocError>
    ensures { OnOk result (text.new.items ≡ text.old.items ++ end_line (end_words end)) }
{
    let line = end_text(alloc, end)?;
    text.extend_from_slice(line.as_bytes())
}

// All that is written of a run with this end.
fn written(
    alloc: Global,
    counted: &CountedJournal,
    version: Version,
    journal: &[Entry],
    end: RunEnd,
    extras: Extras,
) -> Result<Vec<u8>, AllocError>
    requires { counted.now.book.stopped ≡ false }
    ensures { IfOk result (λ text. text.items ≡ text_from version counted.now.book.ledger counted.now.totals extras.report extras.trace journal.now end) }
{
    let mut text = outputs_text(alloc, counted.book.outputs())?;
    add_report(alloc, &mut text, extras.report, counted, journal.len())?;
    add_trace(alloc, &mut text, extras.trace, version, journal)?;
    add_end(alloc, &mut text, end)?;
    Ok(text)
}

// How a run ended, and all that is written of it, by its accounts and the totals of its journal.
fn whole_of(
    alloc: Global,
    counted: &CountedJournal,
    settings: Settings,
    journal: &[Entry],
    extras: Extras,
) -> Result<WholeRun, OrNoMemory<RefusedAt>>
    requires settings { counted.now.book.settings ≡ settings }
    requires open { counted.now.book.stopped ≡ false }
    requires ledger { counted.now.book.ledger ≡ ledger_of counted.now.book.program settings journal.now }
    requires totals { counted.now.totals ≡ totals_from counted.now.book.program settings (opening counted.now.book.program settings) journal.now }
    requires legal { first_refused counted.now.book.program settings journal.now ≡ None }
    ensures whole { OnOk result (refused_as_run counted.now.book.program settings journal.now ≡ None) }
    ensures end { IfOk result (λ run. end_of counted.now.book.program settings journal.now ≡ Some run.end) }
    ensures text { IfOk result (λ run. run.text ≡ out_text counted.now.book.program settings extras.report extras.trace journal.now) }
    ensures fails { IfErr result (Reports (refused_as_run counted.now.book.program settings journal.now)) }
{
    let Some(end) = counted.book.end() else {
        return Err(OrNoMemory::Refused(RefusedAt {
            index: journal.len() as u64 + 1,
            cause: Refused::Short,
        }));
    };
    let text = written(alloc, counted, settings.version(), journal, end, extras)?;
    Ok(WholeRun {
        end,
        text: Listed::from_vec(text),
    })
}

/// How the run of a journal ended, and all that is written of it, if the journal is legal and has an end: with the
/// report and with the trace if they are asked for.
pub fn whole_run(
    alloc: Global,
    program: &Program,
    settings: Settings,
    journal: &[Entry],
    extras: Extras,
) -> Result<WholeRun, OrNoMemory<RefusedAt>>
    ensures whole { OnOk result (refused_as_run program.now settings journal.now ≡ None) }
    ensures end { IfOk result (λ run. end_of program.now settings journal.now ≡ Some run.end) }
    ensures text { IfOk result (λ run. run.text ≡ out_text program.now settings extras.report extras.trace journal.now) }
    ensures fails { IfErr result (Reports (refused_as_run program.now settings journal.now)) }
{
    let counted = count(alloc, program, settings, journal)?;
    let whole = whole_of(alloc, &counted, settings, journal, extras);
    drop(counted);
    whole
}
