// The accesses of all strands, in their serial order.

ghost use Rattle.std.specs.Prelude.{◌≡◌, ◌<◌, ◌≤◌, ◌++◌, true, List, IfOk, OnOk, length};
ghost use Rattle.log_pieces.specs.Pieces.{events_of_pieces};
ghost use Rattle.log_tasks.specs.Numbers.{told_number};
ghost use Rattle.log_touches.specs.Strands.{regions_of_events};
ghost use Rattle.log_touches.specs.Limits.{most_acts};
ghost use Rattle.log_touches.specs.below.log_places.{stretch_count, AreMarked};
ghost use Rattle.log_touches.specs.below.race_scan.{HasScanned, Touch};
ghost use Rattle.log_verdict.specs.below.run_order.{run_order};
ghost use Rattle.log_races.specs.Touches.{told_strand, touches_told, touches_of};

use fork_graph::GraphStrand;
use log_tasks::LogTasks;
use log_touches::{Numbers, RaceScan, StrandPieces, Strands, touch_strand};
use log_verdict::RunOrder;
use log_walk::SerialWalk;
use plain_vec::Listed;
use std::alloc::{AllocError, Global};

// The log's number of a task.
fn told_number(numbers: &Listed<u32>, task: u32) -> u32
    ensures { result ≡ told_number numbers.now task }
{
    match numbers.get(task as usize) {
        Some(number) => *number,
        None => 0,
    }
}

// A strand of the graph as the log has it, if the log tells how its task came to it.
fn told_strand(tasks: &LogTasks, strand: GraphStrand) -> Option<GraphStrand>
    ensures { result ≡ told_strand tasks.now strand }
{
    let known = tasks.known.get(strand.task as usize).copied()?;
    if strand.index as usize > known {
        return None;
    }
    Some(GraphStrand {
        task: told_number(&tasks.numbers, strand.task),
        index: strand.index,
    })
}

// Scans the accesses of a strand of the graph, which has a serial number.
fn scan_strand<S: Strands>(
    scan: &mut RaceScan,
    alloc: Global,
    order: &S,
    numbers: &Numbers,
    pieces: &StrandPieces,
    strand: Option<GraphStrand>,
    serial: u32,
) -> Result<(), AllocError>
    requires known { (S.order order.now).before serial serial ≡ true }
    requires size { length scan.old.cells ≡ stretch_count numbers.now }
    requires marked { AreMarked (regions_of_events (events_of_pieces pieces.now.texts pieces.now.pieces)) numbers.now }
    requires few { length (events_of_pieces pieces.now.texts pieces.now.pieces) ≤ most_acts }
    ensures ok { OnOk result ((past : List Touch) → HasScanned (S.order order.now) numbers.now past scan.old
        → HasScanned (S.order order.now) numbers.now (past ++ touches_told (events_of_pieces pieces.now.texts pieces.now.pieces) strand serial) scan.new) }
    ensures size { length scan.new.cells ≡ length scan.old.cells }
{
    match strand {
        Some(strand) => touch_strand(scan, alloc, order, numbers, pieces, strand, serial),
        None => Ok(()),
    }
}

/// Scans the accesses of all strands of a walk.
pub(crate) fn scan_walk(
    alloc: Global,
    walk: &SerialWalk,
    tasks: &LogTasks,
    numbers: &Numbers,
    pieces: &StrandPieces,
) -> Result<RaceScan, AllocError>
    requires marked { AreMarked (regions_of_events (events_of_pieces pieces.now.texts pieces.now.pieces)) numbers.now }
    requires few { length (events_of_pieces pieces.now.texts pieces.now.pieces) ≤ most_acts }
    requires strands { length walk.now.order ≤ most_acts }
    ensures { IfOk result (HasScanned (run_order walk.now) numbers.now
        (touches_of (events_of_pieces pieces.now.texts pieces.now.pieces) tasks.now walk.now.order)) }
{
    let order = RunOrder::new(walk);
    let mut scan = RaceScan::new(alloc, numbers)?;
    for (serial, strand) in walk.order().iter().enumerate() {
        let told = told_strand(tasks, *strand);
        scan_strand(
            &mut scan,
            alloc,
            &order,
            numbers,
            pieces,
            told,
            serial as u32,
        )?;
    }
    Ok(scan)
}
