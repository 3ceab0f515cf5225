// The data of a whole run, but for its entries.

ghost use Rattle.std.specs.Prelude.{◌≡◌, ◌++◌, ℕ, OnOk, codes};
ghost use Rattle.run_trace.specs.Settings.{field_limit};
ghost use Rattle.hh_model.specs.Step.{start};
ghost use Rattle.page_data.specs.Deltas.{word, more_number};
ghost use Rattle.page_data.specs.Run.{word_with_number, limits_text, settings_text, start_text, settings_and_start, machine_end, end_text, end_data};

use crate::act::{add_count, more_number, more_word};
use crate::delta::{add_bytes, add_tasks};
use hh_lang::Program;
use hh_model::{End, MachineState};
use run_deltas::start_tasks;
use run_ledger::RunEnd;
use run_report::trap_name;
use run_trace::Settings;
use std::alloc::{AllocError, Global};

#[tactic(auto, unfolding(crate::specs::Run::word_with_number))]
// Adds some bytes, and a number behind them.
fn add_named(alloc: Global, text: &mut Vec<u8>, name: &[u8], of: u64) -> Result<(), AllocError>
    ensures { OnOk result (text.new.items ≡ text.old.items ++ word_with_number name.now of) }
{
    text.extend_from_slice(name)?;
    add_count(alloc, text, of)
}

// Adds three numbers, each behind its bytes.
fn add_three(
    alloc: Global,
    text: &mut Vec<u8>,
    workers: u64,
    fuel: u64,
    chunks: u64,
) -> Result<(), AllocError>
    ensures { OnOk result (text.new.items ≡ text.old.items ++ (word_with_number (codes "{\"workers\":") workers ++ word_with_number (codes ",\"fuel\":") fuel ++ word_with_number (codes ",\"chunks\":") chunks)) }
{
    add_named(alloc, text, b"{\"workers\":", workers)?;
    add_named(alloc, text, b",\"fuel\":", fuel)?;
    add_named(alloc, text, b",\"chunks\":", chunks)
}

#[tactic(auto, unfolding(crate::specs::Run::limits_text))]
// Adds the first three settings.
fn add_limits(alloc: Global, text: &mut Vec<u8>, of: Settings) -> Result<(), AllocError>
    ensures { OnOk result (text.new.items ≡ text.old.items ++ limits_text of) }
{
    let workers = of.workers() as u64;
    let chunks = of.chunks() as u64;
    add_three(alloc, text, workers, of.fuel(), chunks)
}

#[tactic(auto, unfolding(crate::specs::Run::settings_text))]
// Adds the settings.
fn add_settings(alloc: Global, text: &mut Vec<u8>, of: Settings) -> Result<(), AllocError>
    ensures { OnOk result (text.new.items ≡ text.old.items ++ settings_text of) }
{
    add_limits(alloc, text, of)?;
    add_named(alloc, text, b",\"leaf\":", of.leaf() as u64)?;
    add_named(alloc, text, b",\"inner\":", of.inner() as u64)?;
    add_named(alloc, text, b",\"version\":", of.version().number() as u64)?;
    text.push(b'}')?;
    Ok(())
}

#[tactic(auto, unfolding(crate::specs::Run::start_text))]
// Adds where the run starts, before whose first step the machine is this.
fn add_start(
    alloc: Global,
    text: &mut Vec<u8>,
    program: &Program,
    state: &MachineState,
) -> Result<(), AllocError>
    ensures { (limit : ℕ) → state.now ≡ start program.now limit → OnOk result (text.new.items ≡ text.old.items ++ start_text program.now limit) }
{
    let tasks = start_tasks(alloc, program, state)?;
    text.extend_from_slice(b"{\"e\":[]")?;
    add_tasks(alloc, text, tasks.as_slice())?;
    text.push(b'}')?;
    Ok(())
}

/// Adds what stands between the program's lines and the entries: the settings, and where the run starts.
pub fn add_settings_and_start(
    alloc: Global,
    text: &mut Vec<u8>,
    program: &Program,
    settings: Settings,
    state: &MachineState,
) -> Result<(), AllocError>
    requires { state.now ≡ start program.now (field_limit settings.version) }
    ensures { OnOk result (text.new.items ≡ text.old.items ++ settings_and_start program.now settings) }
{
    add_bytes(text, b"],\n\"settings\":")?;
    add_settings(alloc, text, settings)?;
    add_bytes(text, b",\n\"entries\":[\n")?;
    add_start(alloc, text, program, state)
}

// Adds a word in quotes.
fn add_word(text: &mut Vec<u8>, of: &[u8]) -> Result<(), AllocError>
    ensures { OnOk result (text.new.items ≡ text.old.items ++ word of.now) }
{
    text.push(b'"')?;
    text.extend_from_slice(of)?;
    text.push(b'"')?;
    Ok(())
}

// Adds how the machine ended.
fn add_machine_end(alloc: Global, text: &mut Vec<u8>, end: End) -> Result<(), AllocError>
    ensures { OnOk result (text.new.items ≡ text.old.items ++ machine_end end) }
{
    match end {
        End::Done => add_word(text, b"done"),
        End::Trapped(trap, task, line) => {
            add_word(text, b"trap")?;
            more_word(text, trap_name(trap).as_bytes())?;
            more_number(alloc, text, task as u64)?;
            more_number(alloc, text, line as u64)
        }
        End::Entangled(reader, owner) => {
            add_word(text, b"entangled")?;
            more_number(alloc, text, reader as u64)?;
            more_number(alloc, text, owner as u64)
        }
    }
}

// Adds how the run ended.
fn add_end(alloc: Global, text: &mut Vec<u8>, end: RunEnd) -> Result<(), AllocError>
    ensures { OnOk result (text.new.items ≡ text.old.items ++ end_text end) }
{
    match end {
        RunEnd::Machine(end) => add_machine_end(alloc, text, end),
        RunEnd::Fuel(steps) => {
            add_word(text, b"fuel")?;
            more_number(alloc, text, steps)
        }
        RunEnd::Pool(chunks) => {
            add_word(text, b"pool")?;
            more_number(alloc, text, chunks as u64)
        }
    }
}

/// Adds what stands behind the entries: how the run ended.
pub fn add_ending(alloc: Global, text: &mut Vec<u8>, end: RunEnd) -> Result<(), AllocError>
    ensures { OnOk result (text.new.items ≡ text.old.items ++ end_data end) }
{
    text.extend_from_slice(b"],\n\"end\":[")?;
    add_end(alloc, text, end)?;
    text.extend_from_slice(b"]}")
}
