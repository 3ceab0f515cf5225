// The unordered pairs of a run.

ghost use Rattle.std.specs.Prelude.{◌≡◌, ◌↔◌, None, IsTrue, OnOk, IfOk, IfErr};
ghost use Rattle.run_ledger.specs.Journals.{first_refused, refused_as_run};
ghost use Rattle.run_journal.specs.below.or_no_memory.{Reports};
ghost use Rattle.schedule_report.specs.Schedules.{AreClashes, IsAnswer};

use crate::data::Clashes;
use hh_model::End;
use race_report::{Entry, Listed, Program, Settings, Sight, races_of};
use run_journal::{OrNoMemory, model_replay};
use run_ledger::{RefusedAt, RunEnd};
use std::alloc::{AllocError, Global};

// Whether a run ended by the return of main.
fn is_done(end: RunEnd) -> bool
    ensures { IsTrue result ↔ (end ≡ RunEnd.Machine End.Done) }
{
    match end {
        RunEnd::Machine(End::Done) => true,
        _ => false,
    }
}

// The pairs of a journal without refused entries.
fn clashes_in(
    alloc: Global,
    program: &Program,
    settings: Settings,
    journal: &[Entry],
) -> Result<Clashes, AllocError>
    requires { first_refused program.now settings journal.now ≡ None }
    ensures { IfOk result (AreClashes program.now settings journal.now) }
{
    let races = races_of(alloc, Sight::Fields, program, settings, journal)?;
    let swaps = races_of(alloc, Sight::Swaps, program, settings, journal)?;
    let prints = races_of(alloc, Sight::Prints, program, settings, journal)?;
    Ok(Clashes {
        races: Listed::from_vec(races),
        swaps: Listed::from_vec(swaps),
        prints: Listed::from_vec(prints),
    })
}

/// The pairs of a journal's run that the graph leaves unordered; None if the run didn't end by the return of main. A
/// journal without an end is refused, as short.
pub fn clashes_of_run(
    alloc: Global,
    program: &Program,
    settings: Settings,
    journal: &[Entry],
) -> Result<Option<Clashes>, OrNoMemory<RefusedAt>>
    ensures whole { OnOk result (refused_as_run program.now settings journal.now ≡ None) }
    ensures clashes { IfOk result (IsAnswer program.now settings journal.now) }
    ensures fails { IfErr result (Reports (refused_as_run program.now settings journal.now)) }
{
    let end = model_replay(alloc, program, settings, journal)?;
    if !is_done(end) {
        return Ok(None);
    }
    Ok(Some(clashes_in(alloc, program, settings, journal)?))
}
