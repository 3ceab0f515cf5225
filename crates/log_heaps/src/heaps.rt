// What a manager of hierarchical heaps would meet on a log's run.

ghost use Rattle.std.specs.Prelude.{◌≡◌, None, IfOk, IfErr};
ghost use Rattle.log_births.specs.below.fork_graph.{Extent};
ghost use Rattle.log_pieces.specs.Pieces.{events_of_pieces};
ghost use Rattle.log_tasks.specs.Log.{IsLog};
ghost use Rattle.log_strands.specs.below.log_form.{events_of, log_fault};
ghost use Rattle.log_heaps.specs.Heaps.{AreHeaps, HeapsAreTooLarge};
ghost use Rattle.log_heaps.specs.Tally.{IsToldOf};
ghost use Rattle.log_heaps.specs.Sums.{IsTooManyAt};

use crate::error::HeapsError;
use crate::rows::{rows_of, sums_of};
use crate::tally::Tally;
use log_births::lifetimes_of;
use log_pieces::LogPiece;
use log_report::LogHeaps;
use log_strands::{count_acts, piece_places};
use log_tasks::LogTasks;
use log_walk::SerialWalk;
use plain_vec::Listed;
use std::alloc::Global;

// What is told of all that was counted.
fn told(alloc: Global, tally: &Tally) -> Result<LogHeaps, HeapsError>
    ensures told { IfOk result (IsToldOf tally.now) }
    ensures too_many { IfErr result (IsTooManyAt tally.now.births) }
{
    let sums = sums_of(alloc, tally.births.as_slice(), &tally.shared)?;
    let depths = rows_of(alloc, sums.as_slice())?;
    Ok(LogHeaps {
        depths,
        stores: tally.stores,
        down: tally.down,
    })
}

/// What a manager of hierarchical heaps would meet on a log's run. It takes time by the acts of the log, each times the
/// logarithm of its task's depth.
pub fn log_heaps(
    alloc: Global,
    texts: &[Listed<u8>],
    pieces: &[LogPiece],
    tasks: &LogTasks,
    walk: &SerialWalk,
) -> Result<LogHeaps, HeapsError>
    requires pieces { events_of_pieces texts.now pieces.now ≡ events_of texts.now }
    requires whole { log_fault texts.now ≡ None }
    requires tasks { (extent : Extent) × IsLog (events_of texts.now) extent tasks.now }
    requires walk { walk.now.tasks ≡ tasks.now.turns }
    ensures heaps { IfOk result (AreHeaps (events_of texts.now) tasks.now) }
    ensures too_much { IfErr result (HeapsAreTooLarge (events_of texts.now) tasks.now) }
{
    let Some(_count) = count_acts(texts, pieces) else {
        return Err(HeapsError::TooLong);
    };
    let places = piece_places(alloc, tasks, walk.order(), pieces)?;
    let lines = lifetimes_of(alloc, texts, pieces, places.as_slice())?;
    let mut tally = Tally::new(alloc);
    tally.take_pieces(walk, &lines, texts, pieces, places.as_slice())?;
    told(alloc, &tally)
}
