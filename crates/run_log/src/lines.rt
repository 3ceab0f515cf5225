// The lines of a run, entry by entry.

ghost use Rattle.std.specs.Prelude.{◌≡◌, ◌<◌, ◌+◌, ◌^◌, ◌++◌, length, OnOk};
ghost use Rattle.run_deltas.specs.Steps.{stepped};
ghost use Rattle.run_deltas.specs.Deltas.{machine_after};
ghost use Rattle.run_log.specs.Writing.{all_written};
ghost use Rattle.run_log.specs.Lines.{deed_lines, lines_of_deed, step_lines, steps_lines, strand_lines, entry_lines, lines_from};

use crate::act::act_of_deed;
use crate::turn::{add_act, add_moved, strand_behind};
use crate::write::add_line;
use hh_lang::Program;
use hh_model::{Machine, MachineState};
use log_lines::{Act, LogLine};
use run_deltas::{Deed, StepDeed, step_deed, take, tasks_made};
use run_journal::joins_of;
use run_trace::{Entry, Kind};
use std::alloc::{AllocError, Global};

// Adds what a step does, which led to this state.
fn add_deed(
    alloc: Global,
    text: &mut Vec<u8>,
    state: &MachineState,
    line: u32,
    deed: Option<Deed>,
) -> Result<(), AllocError>
    ensures { OnOk result (text.new.items ≡ text.old.items ++ all_written (deed_lines state.now line deed)) }
{
    let Some(deed) = deed else {
        return Ok(());
    };
    match act_of_deed(state, line, deed) {
        None => Ok(()),
        Some(act) => add_act(alloc, text, act),
    }
}

// Adds a step, if there was one, which led to this state.
fn add_step(
    alloc: Global,
    text: &mut Vec<u8>,
    made: u32,
    state: &MachineState,
    t: u32,
    step: Option<StepDeed>,
) -> Result<(), AllocError>
    requires { made + 1 < 2 ^ 32 }
    ensures { OnOk result (text.new.items ≡ text.old.items ++ all_written (lines_of_deed made state.now t step)) }
{
    match step {
        None => Ok(()),
        Some(step) => {
            add_deed(alloc, text, state, step.line, step.deed)?;
            add_moved(alloc, text, made, state, t)
        }
    }
}

// Takes a step of a task, if it can take one, and adds it.
fn take_step(
    alloc: Global,
    text: &mut Vec<u8>,
    program: &Program,
    machine: &mut Machine,
    t: u32,
) -> Result<(), AllocError>
    requires { machine.old.program ≡ program.now }
    ensures program { machine.new.program ≡ machine.old.program }
    ensures state { OnOk result (machine.new.state ≡ stepped program.now machine.old.state t 1) }
    ensures text { OnOk result (text.new.items ≡ text.old.items ++ all_written (step_lines program.now machine.old.state t)) }
{
    let made = tasks_made(machine)?;
    let step = step_deed(program, machine.state(), t)?;
    take(machine, t)?;
    add_step(alloc, text, made, machine.state(), t, step)
}

// Takes so many steps of a task, and adds them.
fn take_steps(
    alloc: Global,
    text: &mut Vec<u8>,
    program: &Program,
    machine: &mut Machine,
    t: u32,
    count: u32,
) -> Result<(), AllocError>
    requires { machine.old.program ≡ program.now }
    ensures program { machine.new.program ≡ machine.old.program }
    ensures state { OnOk result (machine.new.state ≡ stepped program.now machine.old.state t count) }
    ensures text { OnOk result (text.new.items ≡ text.old.items ++ all_written (steps_lines program.now machine.old.state t count)) }
{
    for i in 0..count {
        take_step(alloc, text, program, machine, t)?;
    }
    Ok(())
}

// Adds the strand on which the steps of an entry are, and how many they are.
fn add_strand(
    alloc: Global,
    text: &mut Vec<u8>,
    state: &MachineState,
    t: u32,
    count: u32,
) -> Result<(), AllocError>
    ensures { OnOk result (text.new.items ≡ text.old.items ++ all_written (strand_lines state.now t count)) }
{
    let strand = strand_behind(joins_of(state, t))?;
    add_line(alloc, text, &LogLine::Strand { task: t, strand })?;
    add_act(alloc, text, Act::Work(count as u64))
}

// Takes the steps of an entry, and adds them.
fn take_entry(
    alloc: Global,
    text: &mut Vec<u8>,
    program: &Program,
    machine: &mut Machine,
    kind: Kind,
) -> Result<(), AllocError>
    requires { machine.old.program ≡ program.now }
    ensures program { machine.new.program ≡ machine.old.program }
    ensures state { OnOk result (machine.new.state ≡ machine_after program.now machine.old.state kind) }
    ensures text { OnOk result (text.new.items ≡ text.old.items ++ all_written (entry_lines program.now machine.old.state kind)) }
{
    match kind {
        Kind::Ran(t, count) => {
            add_strand(alloc, text, machine.state(), t, count)?;
            take_steps(alloc, text, program, machine, t, count)
        }
        _ => Ok(()),
    }
}

/// Takes the steps of a journal, and adds its lines.
pub(crate) fn take_entries(
    alloc: Global,
    text: &mut Vec<u8>,
    program: &Program,
    machine: &mut Machine,
    journal: &[Entry],
) -> Result<(), AllocError>
    requires { machine.old.program ≡ program.now }
    ensures { OnOk result (text.new.items ≡ text.old.items ++ all_written (lines_from program.now machine.old.state journal.now)) }
{
    for entry in journal {
        take_entry(alloc, text, program, machine, entry.kind())?;
    }
    Ok(())
}
