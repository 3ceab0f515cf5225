// Runs of programs in a given order of their tasks, and whether they have the expected result.

use crate::texts::program;
use hh_lang::Program;
use hh_model::{End, Machine};
use std::alloc::Global;

/// A task, and the number of steps it takes.
pub(crate) type Turn = (u32, u32);

/// What a run has printed, and how it ended; None if it hasn't.
pub(crate) type Outcome<'a> = (&'a [i64], Option<End>);

/// A program, the order of its tasks, and the result.
pub(crate) type Run = (&'static str, &'static [Turn], Outcome<'static>);

/// Takes n steps of a task; returns whether it could.
pub(crate) fn takes(machine: &mut Machine<'_>, (task, count): Turn) -> bool {
    for _ in 0..count {
        if machine.steps() >= 1 << 30 || machine.step(task).is_err() {
            return false;
        }
    }
    true
}

fn takes_all(machine: &mut Machine<'_>, turns: &[Turn]) -> bool {
    for &turn in turns {
        if !takes(machine, turn) {
            return false;
        }
    }
    true
}

/// Whether a machine has printed exactly this, and has this end.
pub(crate) fn is_at(machine: &Machine<'_>, (outputs, end): Outcome<'_>) -> bool {
    machine.outputs() == outputs && machine.end() == end
}

fn runs_to(
    alloc: Global,
    program: &Program,
    field_limit: u32,
    turns: &[Turn],
    outcome: Outcome<'_>,
) -> bool {
    match Machine::start(alloc, program, field_limit) {
        Ok(mut machine) => takes_all(&mut machine, turns) && is_at(&machine, outcome),
        Err(_) => false,
    }
}

/// Whether the program whose text has these parts can be run by these turns, with exactly this result.
pub(crate) fn comes_to(
    alloc: Global,
    text: &[&str],
    field_limit: u32,
    turns: &[Turn],
    outcome: Outcome<'_>,
) -> bool {
    match program(alloc, text) {
        Some(program) => runs_to(alloc, &program, field_limit, turns, outcome),
        None => false,
    }
}

/// Whether a run with the usual limit of fields has the expected result.
pub(crate) fn runs_as(alloc: Global, (text, turns, outcome): Run) -> bool {
    comes_to(alloc, &[text], 1022, turns, outcome)
}
