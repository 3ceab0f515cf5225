// The second pass over the pieces of a log: the accesses of a strand are scanned.

ghost use Rattle.std.specs.Prelude.{◌≡◌, ◌+◌, ◌^◌, ◌<◌, ◌≤◌, ◌++◌, true, List, IfOk, OnOk, All, length};
ghost use Rattle.log_lines.specs.Grammar.{line_of};
ghost use Rattle.log_lines.specs.Limits.{IsAct};
ghost use Rattle.log_pieces.specs.Pieces.{act_said, acts_in, events_of_pieces};
ghost use Rattle.log_places.specs.declared.region.Region.{Region};
ghost use Rattle.log_places.specs.Places.{IsRegionCut};
ghost use Rattle.log_places.specs.Numbers.{stretch_count};
ghost use Rattle.log_places.specs.Counting.{AreMarked};
ghost use Rattle.race_scan.specs.declared.touch.Touch.{Touch};
ghost use Rattle.race_scan.specs.Scan.{HasScanned};
ghost use Rattle.log_touches.specs.Accesses.{touches_of_access, touches_of_act, touches_from, regions_of_act, regions_of_acts};
ghost use Rattle.log_touches.specs.Strands.{regions_of_events, touches_on};
ghost use Rattle.log_touches.specs.Limits.{most_acts};

use crate::access::{access_of, touch_by};
use crate::pieces::StrandPieces;
use fork_graph::GraphStrand;
use log_lines::{Act, next_line};
use log_pieces::act_in;
use log_places::Numbers;
use race_scan::{RaceScan, Strands};
use std::alloc::{AllocError, Global};

// The access of an act is scanned, by the serial number of its strand and the act's own number.
fn touch_access<S: Strands>(
    scan: &mut RaceScan,
    alloc: Global,
    order: &S,
    numbers: &Numbers,
    act: Act,
    at: (u32, u32),
) -> Result<(), AllocError>
    requires act { IsAct act }
    requires size { length scan.old.cells ≡ stretch_count numbers.now }
    requires cut { All (IsRegionCut numbers.now) (regions_of_act act) }
    ensures ok { OnOk result ((past : List Touch) → HasScanned (S.order order.now) numbers.now past scan.old
        → HasScanned (S.order order.now) numbers.now (past ++ touches_of_access at.0 at.1 act) scan.new) }
    ensures size { length scan.new.cells ≡ length scan.old.cells }
{
    match access_of(act) {
        Some(access) => scan.touch(alloc, order, numbers, touch_by(at.0, at.1, access)),
        None => Ok(()),
    }
}

// An act is scanned, by the serial number of its strand and its own number.
fn touch_act<S: Strands>(
    scan: &mut RaceScan,
    alloc: Global,
    order: &S,
    numbers: &Numbers,
    act: Act,
    at: (u32, u32),
) -> Result<(), AllocError>
    requires act { IsAct act }
    requires known { (S.order order.now).before at.0 at.0 ≡ true }
    requires size { length scan.old.cells ≡ stretch_count numbers.now }
    requires cut { All (IsRegionCut numbers.now) (regions_of_act act) }
    ensures ok { OnOk result ((regions : List Region) (past : List Touch) → AreMarked regions numbers.now
        → HasScanned (S.order order.now) numbers.now past scan.old
        → HasScanned (S.order order.now) numbers.now (past ++ touches_of_act regions at.0 at.1 act) scan.new) }
    ensures size { length scan.new.cells ≡ length scan.old.cells }
{
    match act {
        Act::Release(block) => scan.release(alloc, order, numbers, block, at.0, at.1),
        _ => touch_access(scan, alloc, order, numbers, act, at),
    }
}

// A line is scanned, by its strand's serial number and the number of the next act; the number behind it.
fn touch_line<S: Strands>(
    scan: &mut RaceScan,
    alloc: Global,
    order: &S,
    numbers: &Numbers,
    line: &[u8],
    at: (u32, u64),
) -> Result<u64, AllocError>
    requires known { (S.order order.now).before at.0 at.0 ≡ true }
    requires size { length scan.old.cells ≡ stretch_count numbers.now }
    requires cut { All (IsRegionCut numbers.now) (regions_of_acts (act_said (line_of line.now))) }
    requires few { at.1 + length (act_said (line_of line.now)) ≤ most_acts }
    ensures ok { OnOk result ((regions : List Region) (past : List Touch) → AreMarked regions numbers.now
        → HasScanned (S.order order.now) numbers.now past scan.old
        → HasScanned (S.order order.now) numbers.now (past ++ touches_from regions at.0 at.1 (act_said (line_of line.now))) scan.new) }
    ensures number { IfOk result (λ n. n ≡ at.1 + length (act_said (line_of line.now))) }
    ensures size { length scan.new.cells ≡ length scan.old.cells }
{
    match act_in(line) {
        Some(act) => {
            touch_act(scan, alloc, order, numbers, act, (at.0, at.1 as u32))?;
            Ok(at.1 + 1)
        }
        None => Ok(at.1),
    }
}

// A text is scanned, by its strand's serial number and the number of its first act.
fn touch_text<S: Strands>(
    scan: &mut RaceScan,
    alloc: Global,
    order: &S,
    numbers: &Numbers,
    text: &[u8],
    at: (u32, u64),
) -> Result<(), AllocError>
    requires known { (S.order order.now).before at.0 at.0 ≡ true }
    requires size { length scan.old.cells ≡ stretch_count numbers.now }
    requires cut { All (IsRegionCut numbers.now) (regions_of_acts (acts_in text.now)) }
    requires few { at.1 + length (acts_in text.now) ≤ most_acts }
    ensures ok { OnOk result ((regions : List Region) (past : List Touch) → AreMarked regions numbers.now
        → HasScanned (S.order order.now) numbers.now past scan.old
        → HasScanned (S.order order.now) numbers.now (past ++ touches_from regions at.0 at.1 (acts_in text.now)) scan.new) }
    ensures size { length scan.new.cells ≡ length scan.old.cells }
{
    let mut left = text;
    let mut number = at.1;
    'lines: loop {
        let (line, rest) = next_line(left);
        number = touch_line(scan, alloc, order, numbers, line, (at.0, number))?;
        match rest {
            None => return Ok(()),
            Some(rest) => left = rest,
        }
    }
}

/// Scans the accesses of a strand of the log, which has a serial number. A release writes what its block has in all
/// stretches.
pub fn touch_strand<S: Strands>(
    scan: &mut RaceScan,
    alloc: Global,
    order: &S,
    numbers: &Numbers,
    pieces: &StrandPieces,
    strand: GraphStrand,
    serial: u32,
) -> Result<(), AllocError>
    requires known { (S.order order.now).before serial serial ≡ true }
    requires size { length scan.old.cells ≡ stretch_count numbers.now }
    requires marked { AreMarked (regions_of_events (events_of_pieces pieces.now.texts pieces.now.pieces)) numbers.now }
    requires few { length (events_of_pieces pieces.now.texts pieces.now.pieces) ≤ most_acts }
    ensures ok { OnOk result ((past : List Touch) → HasScanned (S.order order.now) numbers.now past scan.old
        → HasScanned (S.order order.now) numbers.now (past ++ touches_on (events_of_pieces pieces.now.texts pieces.now.pieces) strand serial) scan.new) }
    ensures size { length scan.new.cells ≡ length scan.old.cells }
{
    let mut at = pieces.first_on(strand);
    while let Some(place) = at {
        let (text, first) = pieces.piece(place);
        touch_text(scan, alloc, order, numbers, text, (serial, first))?;
        at = pieces.next_after(place);
    }
    Ok(())
}
