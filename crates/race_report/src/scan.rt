// The steps of a journal, and the records of fields.

ghost use Rattle.std.specs.Prelude.{◌≡◌, ◌+◌, ◌<◌, ◌≤◌, ◌^◌, [], None, length, replicate, OnOk, IfOk};
ghost use Rattle.std.specs.BTreeMap as tree;
ghost use Rattle.run_journal.specs.below.run_ledger.{tasks_in, tasks_of};
ghost use Rattle.run_journal.specs.below.hh_model.{step};
ghost use Rattle.race_report.specs.Accesses.{with_some};
ghost use Rattle.race_report.specs.Watch.{Key, key_cmp, watched_from, seen, seen_from, seen_of};
ghost use Rattle.race_report.specs.Scan.{KeepsSame};

use crate::data::{Seen, Sight, Watch};
use crate::label::label_of;
use crate::sight::looked_of;
use crate::watch::keep;
use model_laws::sizes_are_bounded;
use run_journal::{Entry, Kind, Machine, MachineState, Program, StepError};
use std::alloc::{AllocError, Global};
use std::collections::BTreeMap;

// The most fields that an object may have.
fn field_limit(state: &MachineState) -> u32
    ensures value { result ≡ state.now.field_limit }
    ensures below { result < 2 ^ 32 }
{
    state.field_limit
}

/// Records what a task's next step adds to the scan, if anything.
fn look(
    alloc: Global,
    sight: Sight,
    program: &Program,
    machine: &Machine,
    kept: &mut BTreeMap<((u32, u32), (u32, u32)), Watch>,
    t: u32,
) -> Result<(), AllocError>
    requires { machine.now.steps < 2 ^ 30 }
    ensures { OnOk result ((q : Key) → tree.get key_cmp kept.new q ≡ watched_from q (tree.get key_cmp kept.old q) (with_some (seen_of sight program.now machine.now.state t) [])) }
{
    sizes_are_bounded();
    machine.reached();
    let state = machine.state();
    field_limit(state);
    match looked_of(sight, program, state, t) {
        Some(access) => {
            let label = label_of(alloc, state, t)?;
            keep(alloc, kept, Seen { access, label })
        }
        None => Ok(()),
    }
}

/// One step of a task, if it can take one.
fn take(machine: &mut Machine, t: u32) -> Result<(), AllocError>
    requires { machine.old.steps < 2 ^ 30 }
    ensures program { machine.new.program ≡ machine.old.program }
    ensures few { machine.new.steps ≤ machine.old.steps + 1 }
    ensures state { OnOk result (machine.new.state ≡ step machine.old.program machine.old.state t) }
{
    match machine.step(t) {
        Ok(()) => Ok(()),
        Err(StepError::Idle) => Ok(()),
        Err(StepError::NoMemory) => Err(AllocError),
    }
}

/// n steps of a task.
fn take_steps(
    alloc: Global,
    sight: Sight,
    program: &Program,
    machine: &mut Machine,
    kept: &mut BTreeMap<((u32, u32), (u32, u32)), Watch>,
    t: u32,
    k: u32,
) -> Result<(), AllocError>
    requires program { machine.old.program ≡ program.now }
    requires few { machine.old.steps + k < 2 ^ 30 }
    ensures program { machine.new.program ≡ machine.old.program }
    ensures few { machine.new.steps ≤ machine.old.steps + k }
    ensures follows { OnOk result (KeepsSame sight program.now machine.old.state (tree.get key_cmp kept.old) machine.new.state (tree.get key_cmp kept.new) (replicate k t)) }
{
    for i in 0..k {
        look(alloc, sight, program, machine, kept, t)?;
        take(machine, t)?;
    }
    Ok(())
}

// Steps of one task.
#[derive(Clone, Copy)]
struct Steps {
    task: u32,
    count: u32,
}

// The steps of an entry.
fn steps_in(kind: Kind) -> Steps
    ensures { replicate result.count result.task ≡ tasks_in kind }
{
    match kind {
        Kind::Ran(task, count) => Steps { task, count },
        _ => Steps { task: 0, count: 0 },
    }
}

/// The steps of a journal.
fn take_entries(
    alloc: Global,
    sight: Sight,
    program: &Program,
    machine: &mut Machine,
    kept: &mut BTreeMap<((u32, u32), (u32, u32)), Watch>,
    journal: &[Entry],
) -> Result<(), AllocError>
    requires program { machine.old.program ≡ program.now }
    requires few { machine.old.steps + length (tasks_of journal.now) < 2 ^ 30 }
    ensures { OnOk result ((q : Key) → tree.get key_cmp kept.new q ≡ watched_from q (tree.get key_cmp kept.old q) (seen_from sight program.now machine.old.state (tasks_of journal.now))) }
{
    for entry in journal {
        let ran = steps_in(entry.kind());
        take_steps(alloc, sight, program, machine, kept, ran.task, ran.count)?;
    }
    Ok(())
}

/// The steps of a journal, from the start.
fn scan_onto(
    alloc: Global,
    sight: Sight,
    program: &Program,
    field_limit: u32,
    kept: &mut BTreeMap<((u32, u32), (u32, u32)), Watch>,
    journal: &[Entry],
) -> Result<(), AllocError>
    requires { length (tasks_of journal.now) < 2 ^ 30 }
    ensures { OnOk result ((q : Key) → tree.get key_cmp kept.new q ≡ watched_from q (tree.get key_cmp kept.old q) (seen sight program.now field_limit (tasks_of journal.now))) }
{
    let mut machine = Machine::start(alloc, program, field_limit)?;
    take_entries(alloc, sight, program, &mut machine, kept, journal)
}

/// The records of all fields after the steps of a journal.
pub(crate) fn scan(
    alloc: Global,
    sight: Sight,
    program: &Program,
    field_limit: u32,
    journal: &[Entry],
) -> Result<BTreeMap<((u32, u32), (u32, u32)), Watch>, AllocError>
    requires { length (tasks_of journal.now) < 2 ^ 30 }
    ensures kept { IfOk result (λ kept. (q : Key) → tree.get key_cmp kept q ≡ watched_from q None (seen sight program.now field_limit (tasks_of journal.now))) }
    ensures ordered { IfOk result (λ kept. tree.IsOrdered key_cmp kept) }
{
    let mut kept = BTreeMap::new(alloc);
    scan_onto(alloc, sight, program, field_limit, &mut kept, journal)?;
    let _count = kept.len();
    Ok(kept)
}
