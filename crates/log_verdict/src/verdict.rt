// The races of a run's accesses.

ghost use Rattle.std.specs.Prelude.{◌≡◌, IfOk, Err, All};
ghost use Rattle.log_places.specs.Places.{IsRegion};
ghost use Rattle.log_places.specs.Counting.{AreOver};
ghost use Rattle.race_scan.specs.Touches.{regions_of};
ghost use Rattle.log_verdict.specs.Verdict.{AreInSerialOrder, AreVerdicts};

use log_places::NumberError;
use log_walk::SerialWalk;
use race_scan::{RaceScan, Touch, number_all, scan_all};
use run_order::RunOrder;
use std::alloc::Global;

/// Finds the races of the accesses of a walked run: each location of which two accesses race by strands that are
/// concurrent, with its first race in serial order, and no other.
///
/// Accesses come in the serial order of their strands, and name them by their serial numbers. Their locations are cut
/// into stretches where pages, and runs of accesses, begin and end. Each takes a cell, and there may be `limit` of them.
pub fn find_races(
    alloc: Global,
    walk: &SerialWalk,
    touches: &[Touch],
    limit: usize,
) -> Result<RaceScan, NumberError>
    requires regions { All (λ t. IsRegion t.region) touches.now }
    requires serial { AreInSerialOrder walk.now touches.now }
    ensures races { IfOk result (λ scan. AreVerdicts walk.now touches.now scan.races) }
    ensures over { result ≡ Err NumberError.OverLimit → AreOver (regions_of touches.now) limit }
{
    let numbers = number_all(alloc, touches, limit)?;
    let order = RunOrder::new(walk);
    let scan = scan_all(alloc, &order, &numbers, touches)?;
    Ok(scan)
}
