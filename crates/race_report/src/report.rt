// The races of a journal.

ghost use Rattle.std.specs.Prelude.{◌≡◌, None, OnOk, IfOk, IfErr};
ghost use Rattle.run_journal.specs.below.run_trace.{field_limit};
ghost use Rattle.run_journal.specs.below.run_ledger.{first_refused, refused_as_run, machine_of, tasks_of};
ghost use Rattle.run_journal.specs.below.or_no_memory.{Reports};
ghost use Rattle.race_report.specs.Accesses.{accesses};
ghost use Rattle.race_report.specs.Sights.{looked};
ghost use Rattle.race_report.specs.Report.{IsReport};

use crate::data::{Race, Sight};
use crate::scan::scan;
use crate::watch::races_in;
use run_journal::{Entry, OrNoMemory, Program, RefusedAt, Settings, model_replay, replayed};
use std::alloc::{AllocError, Global};

/// The pairs of a journal without refused entries, scanned for something: one for each field with a race, in the order
/// of the fields, as `races` defines it.
pub fn races_of(
    alloc: Global,
    sight: Sight,
    program: &Program,
    settings: Settings,
    journal: &[Entry],
) -> Result<Vec<Race>, AllocError>
    requires { first_refused program.now settings journal.now ≡ None }
    ensures { IfOk result (λ races. IsReport (machine_of program.now settings journal.now).edges (looked sight program.now (field_limit settings.version) (tasks_of journal.now)) races.items) }
{
    let _workers = settings.workers();
    let kept = scan(
        alloc,
        sight,
        program,
        settings.version().field_limit(),
        journal,
    )?;
    races_in(alloc, &kept)
}

// Whether a journal has no refused entry.
fn check_journal(
    alloc: Global,
    program: &Program,
    settings: Settings,
    journal: &[Entry],
) -> Result<(), OrNoMemory<RefusedAt>>
    ensures legal { OnOk result (first_refused program.now settings journal.now ≡ None) }
    ensures fails { IfErr result (Reports (first_refused program.now settings journal.now)) }
{
    let _book = replayed(alloc, program, settings, journal)?;
    Ok(())
}

/// The races of a legal journal, with or without an end: one pair for each field with a race, in the order of the
/// fields. The pair of a field is the race with the earliest later access, and of those the one with the earliest other
/// access.
pub fn races(
    alloc: Global,
    program: &Program,
    settings: Settings,
    journal: &[Entry],
) -> Result<Vec<Race>, OrNoMemory<RefusedAt>>
    ensures legal { OnOk result (first_refused program.now settings journal.now ≡ None) }
    ensures report { IfOk result (λ races. IsReport (machine_of program.now settings journal.now).edges (accesses program.now (field_limit settings.version) (tasks_of journal.now)) races.items) }
    ensures fails { IfErr result (Reports (first_refused program.now settings journal.now)) }
{
    check_journal(alloc, program, settings, journal)?;
    Ok(races_of(alloc, Sight::Fields, program, settings, journal)?)
}

/// The races of the journal of a whole run: a journal without an end is refused too, as short.
pub fn races_of_run(
    alloc: Global,
    program: &Program,
    settings: Settings,
    journal: &[Entry],
) -> Result<Vec<Race>, OrNoMemory<RefusedAt>>
    ensures whole { OnOk result (refused_as_run program.now settings journal.now ≡ None) }
    ensures report { IfOk result (λ races. IsReport (machine_of program.now settings journal.now).edges (accesses program.now (field_limit settings.version) (tasks_of journal.now)) races.items) }
    ensures fails { IfErr result (Reports (refused_as_run program.now settings journal.now)) }
{
    let _end = model_replay(alloc, program, settings, journal)?;
    Ok(races_of(alloc, Sight::Fields, program, settings, journal)?)
}
