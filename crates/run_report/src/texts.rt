// The lines that are written of a run.

ghost use Rattle.std.specs.Prelude.{◌≡◌, ◌≢◌, ◌∷◌, ◌++◌, [], IfOk, OnOk, codes};
ghost use Rattle.std.specs.String.{string_bytes};
ghost use Rattle.std.specs.List.{join_with_byte};
ghost use Rattle.run_ledger.specs.Text.{trap_word, machine_end_words, end_words, end_line, cause_words, refused_line, report_lines, line, output_lines};
ghost use Rattle.std.specs.Fmt.{decimal, signed_decimal};
ghost use Rattle.run_report.specs.Words.{number_words};

use hh_model::{End, Trap};
use run_ledger::{Refused, RefusedAt, Report, RunEnd};
use std::alloc::{AllocError, Global};

/// The word for a trap.
pub fn trap_name(trap: Trap) -> &'static str
    ensures { result.now ≡ trap_word trap }
{
    match trap {
        Trap::Nil => "nil",
        Trap::Range => "range",
        Trap::Frozen => "frozen",
        Trap::Div => "div",
        Trap::Size => "size",
        Trap::Depth => "depth",
    }
}

// How the machine ended, in words separated by single spaces.
fn machine_end_text(alloc: Global, end: End) -> Result<String, AllocError>
    ensures { IfOk result (λ text. string_bytes text ≡ join_with_byte 32 (machine_end_words end)) }
{
    match end {
        End::Done => format!(in alloc; "done"),
        End::Trapped(trap, task, line) => {
            let name = trap_name(trap);
            format!(in alloc; "trap {name} task {task} line {line}")
        }
        End::Entangled(reader, owner) => {
            format!(in alloc; "entangled reader {reader} owner {owner}")
        }
    }
}

/// The end line of a run, with its line feed.
pub fn end_text(alloc: Global, end: RunEnd) -> Result<String, AllocError>
    ensures { IfOk result (λ text. string_bytes text ≡ end_line (end_words end)) }
{
    match end {
        RunEnd::Machine(end) => {
            let words = machine_end_text(alloc, end)?;
            format!(in alloc; "end: {words}\n")
        }
        RunEnd::Fuel(steps) => format!(in alloc; "end: fuel {steps}\n"),
        RunEnd::Pool(chunks) => format!(in alloc; "end: pool {chunks}\n"),
    }
}

// The numbers of a cause.
#[derive(Clone, Copy)]
enum CauseNumbers {
    None,
    One(u64),
    Two(u64, u64),
}

// The word of a cause, and its numbers.
fn cause_parts(cause: Refused) -> (&'static str, CauseNumbers)
    ensures { cause_words cause ≡ result.0.now ∷ number_words result.1 }
{
    match cause {
        Refused::Over => ("over", CauseNumbers::None),
        Refused::Spent(steps) => ("spent", CauseNumbers::One(steps)),
        Refused::NoWorker => ("noworker", CauseNumbers::None),
        Refused::NotReady => ("notready", CauseNumbers::None),
        Refused::Holding(task) => ("holding", CauseNumbers::One(task as u64)),
        Refused::NotOut => ("notout", CauseNumbers::None),
        Refused::Collecting => ("collecting", CauseNumbers::None),
        Refused::NotCollecting => ("notcollecting", CauseNumbers::None),
        Refused::NotWaiting => ("notwaiting", CauseNumbers::None),
        Refused::Swept => ("swept", CauseNumbers::None),
        Refused::Marking => ("marking", CauseNumbers::None),
        Refused::NotMarking => ("notmarking", CauseNumbers::None),
        Refused::Long(steps) => ("long", CauseNumbers::One(steps as u64)),
        Refused::Due(since) => ("due", CauseNumbers::One(since)),
        Refused::NotNeeded(room) => ("notneeded", CauseNumbers::One(room as u64)),
        Refused::NotDue(words) => ("notdue", CauseNumbers::One(words)),
        Refused::PoolShort(chunks) => ("poolshort", CauseNumbers::One(chunks as u64)),
        Refused::PoolEnough(chunks) => ("poolenough", CauseNumbers::One(chunks as u64)),
        Refused::Marked => ("marked", CauseNumbers::None),
        Refused::Left(marked) => ("left", CauseNumbers::One(marked as u64)),
        Refused::Count(said, is) => ("count", CauseNumbers::Two(said as u64, is as u64)),
        Refused::NotSpent(steps) => ("notspent", CauseNumbers::One(steps)),
        Refused::Short => ("short", CauseNumbers::None),
        Refused::Stopped => ("stopped", CauseNumbers::None),
    }
}

// A cause and its numbers, separated by single spaces.
fn cause_text(alloc: Global, cause: Refused) -> Result<String, AllocError>
    ensures { IfOk result (λ text. string_bytes text ≡ join_with_byte 32 (cause_words cause)) }
{
    let (word, numbers) = cause_parts(cause);
    match numbers {
        CauseNumbers::None => format!(in alloc; "{word}"),
        CauseNumbers::One(number) => format!(in alloc; "{word} {number}"),
        CauseNumbers::Two(said, is) => format!(in alloc; "{word} {said} {is}"),
    }
}

// The end line if this entry is refused.
fn entry_text(alloc: Global, refused: RefusedAt) -> Result<String, AllocError>
    requires { refused.cause ≢ Refused.Short }
    ensures { IfOk result (λ text. string_bytes text ≡ refused_line refused) }
{
    let cause = cause_text(alloc, refused.cause)?;
    format!(in alloc; "end: trace refused entry {} {cause}\n", refused.index)
}

/// The end line if an entry is refused, with its line feed.
pub fn refused_text(alloc: Global, refused: RefusedAt) -> Result<String, AllocError>
    ensures { IfOk result (λ text. string_bytes text ≡ refused_line refused) }
{
    match refused.cause {
        Refused::Short => format!(in alloc; "end: trace refused short\n"),
        _ => entry_text(alloc, refused),
    }
}

// Appends the report's line on the run's length.
fn add_length(text: &mut String, tasks: u64, steps: u64, turns: u64) -> Result<(), AllocError>
    ensures { OnOk result (string_bytes text.new ≡ string_bytes text.old ++ line (codes "report tasks" ∷ decimal tasks ∷ codes "steps" ∷ decimal steps ∷ codes "turns" ∷ decimal turns ∷ [])) }
{
    write!(text, "report tasks {tasks} steps {steps} turns {turns}\n")
}

// Appends the report's line on leaf collections.
fn add_leaf(text: &mut String, leaf: u64, putoff: u64, freed: u64) -> Result<(), AllocError>
    ensures { OnOk result (string_bytes text.new ≡ string_bytes text.old ++ line (codes "report leaf" ∷ decimal leaf ∷ codes "putoff" ∷ decimal putoff ∷ codes "freed" ∷ decimal freed ∷ [])) }
{
    write!(text, "report leaf {leaf} putoff {putoff} freed {freed}\n")
}

// Appends the report's line on sweeps.
fn add_inner(text: &mut String, inner: u64, freed: u64) -> Result<(), AllocError>
    ensures { OnOk result (string_bytes text.new ≡ string_bytes text.old ++ line (codes "report inner" ∷ decimal inner ∷ codes "freed" ∷ decimal freed ∷ [])) }
{
    write!(text, "report inner {inner} freed {freed}\n")
}

// Appends the report's line on chunks.
fn add_chunks(text: &mut String, chunks: u64, peak: u64) -> Result<(), AllocError>
    ensures { OnOk result (string_bytes text.new ≡ string_bytes text.old ++ line (codes "report chunks" ∷ decimal chunks ∷ codes "peak" ∷ decimal peak ∷ [])) }
{
    write!(text, "report chunks {chunks} peak {peak}\n")
}

// Appends the report's line on what is held at the end.
fn add_held(text: &mut String, held: u64, words: u64) -> Result<(), AllocError>
    ensures { OnOk result (string_bytes text.new ≡ string_bytes text.old ++ line (codes "report held" ∷ decimal held ∷ codes "words" ∷ decimal words ∷ [])) }
{
    write!(text, "report held {held} words {words}\n")
}

// Appends the lines of the report to a text.
fn add_report(text: &mut String, report: Report) -> Result<(), AllocError>
    ensures { OnOk result (string_bytes text.new ≡ string_bytes text.old ++ report_lines report) }
{
    add_length(text, report.tasks, report.steps, report.turns)?;
    add_leaf(text, report.leaf, report.putoff, report.leaf_freed)?;
    add_inner(text, report.inner, report.inner_freed)?;
    add_chunks(text, report.chunks, report.peak)?;
    add_held(text, report.held, report.words)
}

/// The lines of the report.
pub fn report_text(alloc: Global, report: Report) -> Result<String, AllocError>
    ensures { IfOk result (λ text. string_bytes text ≡ report_lines report) }
{
    let mut text = String::new(alloc);
    add_report(&mut text, report)?;
    Ok(text)
}

/// The lines of a run's outputs.
pub fn outputs_text(alloc: Global, outputs: &[i64]) -> Result<Vec<u8>, AllocError>
    ensures { IfOk result (λ text. text.items ≡ output_lines outputs.now) }
{
    let mut text = Vec::new(alloc);
    for output in outputs {
        add_output(alloc, &mut text, *output)?;
    }
    Ok(text)
}

// Appends the line of one output.
fn add_output(alloc: Global, text: &mut Vec<u8>, output: i64) -> Result<(), AllocError>
    ensures { OnOk result (text.new.items ≡ text.old.items ++ signed_decimal output ++ 10 ∷ []) }
{
    let line = format!(in alloc; "{output}\n")?;
    text.extend_from_slice(line.as_bytes())
}
