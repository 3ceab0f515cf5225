// What is shown of the races of a run.

ghost use Rattle.std.specs.Prelude.{◌≡◌, None, OnOk, IfOk, IfErr};
ghost use Rattle.run_trace.specs.below.or_no_memory.{Reports};
ghost use Rattle.run_ledger.specs.Journals.{refused_as_run};
ghost use Rattle.race_groups.specs.Shown.{RacesAreShown, shown_of};

use crate::groups::group_races;
use crate::swaps::has_swaps;
use crate::text::groups_text;
use hh_lang::Program;
use plain_vec::Listed;
use race_report::{Race, races_of_run};
use run_ledger::RefusedAt;
use run_trace::{Entry, OrNoMemory, Settings};
use std::alloc::{AllocError, Global};

/// The text that is shown of the races of a run, and their number.
#[derive(Drop)]
pub struct ShownRaces {
    pub races: usize,
    pub text: Listed<u8>,
}

// What is shown of these races.
fn show(
    alloc: Global,
    source: &[u8],
    program: &Program,
    races: &[Race],
) -> Result<ShownRaces, AllocError>
    ensures { IfOk result (λ shown. shown ≡ shown_of source.now program.now races.now) }
{
    let groups = group_races(alloc, races)?;
    let text = groups_text(
        alloc,
        source,
        has_swaps(program),
        races.len(),
        groups.as_slice(),
    )?;
    Ok(ShownRaces {
        races: races.len(),
        text: Listed::from_vec(text),
    })
}

/// The races of the journal of a whole run, by pairs of lines; a journal without an end is refused, as short.
///
/// `source` is a text that begins with the program's.
pub fn shown_races(
    alloc: Global,
    source: &[u8],
    program: &Program,
    settings: Settings,
    journal: &[Entry],
) -> Result<ShownRaces, OrNoMemory<RefusedAt>>
    ensures whole { OnOk result (refused_as_run program.now settings journal.now ≡ None) }
    ensures shown { IfOk result (RacesAreShown source.now program.now settings journal.now) }
    ensures fails { IfErr result (Reports (refused_as_run program.now settings journal.now)) }
{
    let races = races_of_run(alloc, program, settings, journal)?;
    Ok(show(alloc, source, program, races.as_slice())?)
}
