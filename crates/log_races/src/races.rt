// The races of a log.

ghost use Rattle.std.specs.Prelude.{◌≡◌, ◌≤◌, IfOk, IfErr, OnOk, All, length};
ghost use Rattle.log_form.specs.Events.{events_of};
ghost use Rattle.log_pieces.specs.Pieces.{events_of_pieces};
ghost use Rattle.log_verdict.specs.Verdict.{AreVerdicts};
ghost use Rattle.log_touches.specs.Strands.{regions_of_events};
ghost use Rattle.log_touches.specs.Chains.{firsts_from};
ghost use Rattle.log_touches.specs.Limits.{most_acts};
ghost use Rattle.log_touches.specs.below.log_places.{AreMarked};
ghost use Rattle.log_races.specs.Touches.{touches_of};
ghost use Rattle.log_races.specs.Limits.{RacesAreTooMany, IsTooLargeFor};

use crate::strands::scan_walk;
use log_pieces::LogPiece;
use log_tasks::LogTasks;
use log_touches::{Numbers, RaceScan, RacesError, StrandPieces, mark_pieces};
use log_walk::SerialWalk;
use plain_vec::Listed;
use std::alloc::Global;

/// There are at most so many strands.
const MOST_STRANDS: usize = 1 << 32;

// The stretches of all locations that are accessed, and the number of each piece's first act.
fn numbers_of(
    alloc: Global,
    texts: &[Listed<u8>],
    pieces: &[LogPiece],
    limit: usize,
) -> Result<(Numbers, Listed<u64>), RacesError>
    ensures marked { IfOk result (λ r. AreMarked (regions_of_events (events_of_pieces texts.now pieces.now)) r.0) }
    ensures firsts { IfOk result (λ r. r.1 ≡ firsts_from texts.now 0 pieces.now) }
    ensures few { OnOk result (length (events_of_pieces texts.now pieces.now) ≤ most_acts) }
    ensures refused { IfErr result (IsTooLargeFor (events_of_pieces texts.now pieces.now) limit) }
{
    let (places, firsts) = mark_pieces(alloc, texts, pieces)?;
    let numbers = places.number(limit)?;
    Ok((numbers, firsts))
}

/// The races of a log that has no faulty line and no task at fault, by a walk over its graph: of each location of which
/// two accesses race, one race. Whoever accesses a location is told by the number of the act among all acts of the log.
///
/// The locations that are accessed are cut into stretches where pages, and runs of accesses, begin and end. Each takes a
/// cell, and there may be `limit` of them.
pub fn log_races(
    alloc: Global,
    texts: &[Listed<u8>],
    pieces: &[LogPiece],
    tasks: &LogTasks,
    walk: &SerialWalk,
    limit: usize,
) -> Result<RaceScan, RacesError>
    requires { events_of_pieces texts.now pieces.now ≡ events_of texts.now }
    ensures races { IfOk result (λ scan. AreVerdicts walk.now (touches_of (events_of texts.now) tasks.now walk.now.order) scan.races) }
    ensures refused { IfErr result (RacesAreTooMany (events_of texts.now) walk.now.order limit) }
{
    let strands = walk.order().len();
    if strands > MOST_STRANDS {
        return Err(RacesError::TooLong);
    }
    let (numbers, firsts) = numbers_of(alloc, texts, pieces, limit)?;
    let pieces = StrandPieces::new(alloc, texts, pieces, firsts, strands)?;
    let scan = scan_walk(alloc, walk, tasks, &numbers, &pieces)?;
    Ok(scan)
}
