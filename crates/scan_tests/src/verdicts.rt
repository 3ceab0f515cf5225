// The races of runs.

ghost use Rattle.std.specs.Prelude.{◌<◌, ◌≤◌, IsTrue, IfSome, All, AllPairs};
ghost use Rattle.log_places.specs.Places.{IsRegion};

use fork_graph::GraphTurn::{Join, Spawn};
use fork_graph::{Extent, GraphTurn, are_small, first_fault};
use log_places::Region;
use log_verdict::find_races;
use log_walk::SerialWalk;
use plain_vec::Listed;
use race_cells::CellAccessKind::{AtomicRead, AtomicWrite, PlainRead, PlainWrite};
use race_cells::{CellAccess, CellAccessKind};
use race_scan::{FoundRace, Touch};
use std::alloc::{AllocError, Global};

// An access by its strand's serial number, its kind, and the block, offset, length, number and distance of its runs.
type Row = (u32, CellAccessKind, (u64, u64, u64, u64, u64));

// A race by its block, where its stretch begins and ends, and the strands of the two accesses.
type Found = (u64, u64, u64, u32, u32);

struct Case {
    name: &'static str,
    tasks: &'static [&'static [GraphTurn]],
    accesses: &'static [Row],
    races: &'static [Found],
}

// Two children beside each other, joined in the order of their spawns: strands 1 and 3 are theirs, 0, 2, 4, 5 and 6 the
// root's; the first child is joined before strand 5, the second before strand 6.
const PAIR: &[&[GraphTurn]] = &[&[Spawn(1), Spawn(2), Join(1), Join(2)], &[], &[]];

const CASES: &[Case] = &[
    Case {
        name: "halves that overlap by a location",
        tasks: PAIR,
        accesses: &[
            (1, PlainWrite, (1, 0, 4, 1, 4)),
            (3, PlainWrite, (1, 3, 5, 1, 5)),
            (6, PlainRead, (1, 0, 8, 1, 8)),
        ],
        races: &[(1, 3, 4, 1, 3)],
    },
    Case {
        name: "blocks are apart",
        tasks: PAIR,
        accesses: &[
            (1, PlainWrite, (1, 0, 4, 1, 4)),
            (3, PlainWrite, (2, 0, 4, 1, 4)),
        ],
        races: &[],
    },
    Case {
        name: "the root reads before the second join",
        tasks: PAIR,
        accesses: &[
            (1, PlainWrite, (1, 0, 2, 1, 2)),
            (3, PlainWrite, (1, 2, 2, 1, 2)),
            (5, PlainRead, (1, 0, 4, 1, 4)),
        ],
        races: &[(1, 2, 4, 3, 5)],
    },
    Case {
        name: "every other location, and a run between them",
        tasks: PAIR,
        accesses: &[
            (1, PlainWrite, (7, 0, 1, 4, 2)),
            (3, PlainRead, (7, 1, 1, 1, 1)),
            (4, PlainRead, (7, 5, 2, 1, 2)),
        ],
        races: &[(7, 6, 7, 1, 4)],
    },
    Case {
        name: "over a border of pages",
        tasks: PAIR,
        accesses: &[
            (1, PlainRead, (1, 4094, 4, 1, 4)),
            (3, PlainWrite, (1, 4095, 2, 1, 2)),
        ],
        races: &[(1, 4095, 4096, 1, 3), (1, 4096, 4097, 1, 3)],
    },
    Case {
        name: "atomic accesses race with plain ones alone, and of a location one race is told",
        tasks: PAIR,
        accesses: &[
            (1, AtomicWrite, (1, 0, 1, 1, 1)),
            (2, AtomicRead, (1, 0, 1, 1, 1)),
            (3, PlainRead, (1, 0, 1, 1, 1)),
            (4, PlainWrite, (1, 0, 1, 1, 1)),
        ],
        races: &[(1, 0, 1, 1, 3)],
    },
    Case {
        name: "a grandchild, and its grandparent's other child",
        tasks: &[
            &[Spawn(1), Spawn(2), Join(2), Join(1)],
            &[Spawn(3), Join(3)],
            &[],
            &[],
        ],
        accesses: &[
            (0, PlainWrite, (1, 0, 4, 1, 4)),
            (2, PlainWrite, (1, 0, 1, 2, 2)),
            (3, PlainWrite, (1, 1, 1, 1, 1)),
            (3, PlainRead, (1, 2, 1, 1, 1)),
            (4, PlainRead, (1, 0, 2, 1, 2)),
            (6, PlainRead, (1, 0, 1, 1, 1)),
            (9, PlainWrite, (1, 0, 4, 1, 4)),
        ],
        races: &[(1, 2, 3, 2, 3), (1, 0, 1, 2, 6)],
    },
];

fn turns_of(alloc: Global, row: &[GraphTurn]) -> Result<Listed<GraphTurn>, AllocError> {
    let mut turns = Listed::new(alloc);
    for turn in row {
        turns.push(*turn)?;
    }
    Ok(turns)
}

fn tasks_of(alloc: Global, rows: &[&[GraphTurn]]) -> Result<Listed<Listed<GraphTurn>>, AllocError> {
    let mut tasks = Listed::new(alloc);
    for row in rows {
        tasks.push(turns_of(alloc, row)?)?;
    }
    Ok(tasks)
}

// The region of a row, if it is one.
fn region_of(row: (u64, u64, u64, u64, u64)) -> Option<Region>
    ensures { IfSome result IsRegion }
{
    let (block, offset, length, runs, apart) = row;
    let region = Region {
        block,
        offset,
        length,
        runs,
        apart,
    };
    if is_region(region) {
        Some(region)
    } else {
        None
    }
}

// Whether runs aren't empty and don't overlap, and their locations are below the limit.
fn is_region(region: Region) -> bool
    ensures { IsTrue result → IsRegion region }
{
    if region.length == 0 || region.apart < region.length || region.runs == 0 {
        return false;
    }
    let Some(span) = (region.runs - 1).checked_mul(region.apart) else {
        return false;
    };
    span < 1 << 50 && region.offset < 1 << 50 && region.length < 1 << 50
}

// Adds the access of a row, if its strand is there and comes no earlier than those before.
fn add(touches: &mut Vec<Touch>, row: &Row, last: u32, count: usize) -> Option<()>
    requires known { All (λ t. t.access.strand < count) touches.old.items }
    requires sorted { AllPairs (λ t u. t.access.strand ≤ u.access.strand) touches.old.items }
    requires last { All (λ t. t.access.strand ≤ last) touches.old.items }
    requires regions { All (λ t. IsRegion t.region) touches.old.items }
    ensures known { IfSome result (λ _. All (λ t. t.access.strand < count) touches.new.items) }
    ensures sorted { IfSome result (λ _. AllPairs (λ t u. t.access.strand ≤ u.access.strand) touches.new.items) }
    ensures last { IfSome result (λ _. All (λ t. t.access.strand ≤ row.now.0) touches.new.items) }
    ensures regions { IfSome result (λ _. All (λ t. IsRegion t.region) touches.new.items) }
{
    let (strand, kind, place) = *row;
    if strand < last || strand as usize >= count {
        return None;
    }
    let region = region_of(place)?;
    let access = CellAccess {
        strand,
        kind,
        line: 0,
    };
    match touches.push(Touch { region, access }) {
        Ok(()) => Some(()),
        Err(_) => None,
    }
}

// The accesses of rows, whose strands are there and stand in ascending order.
fn touches_of(alloc: Global, rows: &[Row], count: usize) -> Option<Vec<Touch>>
    ensures known { IfSome result (λ touches. All (λ t. t.access.strand < count) touches.items) }
    ensures sorted { IfSome result (λ touches. AllPairs (λ t u. t.access.strand ≤ u.access.strand) touches.items) }
    ensures regions { IfSome result (λ touches. All (λ t. IsRegion t.region) touches.items) }
{
    let mut touches = Vec::new(alloc);
    let mut last = 0;
    for row in rows {
        add(&mut touches, row, last, count)?;
        last = row.0;
    }
    Some(touches)
}

fn is_found(found: &FoundRace, race: &Found) -> bool {
    let (block, start, end, first, second) = *race;
    found.block == block
        && found.slot.start == start
        && found.slot.end == end
        && found.race.first.strand == first
        && found.race.second.strand == second
}

fn are_found(found: &[FoundRace], races: &[Found]) -> bool {
    if found.len() != races.len() {
        return false;
    }
    for (found, race) in found.iter().zip(races) {
        if !is_found(found, race) {
            return false;
        }
    }
    true
}

fn finds(alloc: Global, walk: &SerialWalk, case: &Case) -> bool {
    let Some(touches) = touches_of(alloc, case.accesses, walk.order().len()) else {
        return false;
    };
    match find_races(alloc, walk, &touches, 1000) {
        Ok(scan) => are_found(scan.races(), case.races),
        Err(_) => false,
    }
}

fn is_told(alloc: Global, tasks: &Listed<Listed<GraphTurn>>, case: &Case) -> bool {
    if tasks.is_empty() || !are_small(tasks) {
        return false;
    }
    let Ok(None) = first_fault(alloc, tasks, Extent::Whole) else {
        return false;
    };
    match SerialWalk::new(alloc, tasks) {
        Ok(walk) => finds(alloc, &walk, case),
        Err(_) => false,
    }
}

fn is_right(alloc: Global, case: &Case) -> bool {
    match tasks_of(alloc, case.tasks) {
        Ok(tasks) => is_told(alloc, &tasks, case),
        Err(_) => false,
    }
}

#[test]
fn verdicts(rt: HostRuntime) {
    for case in CASES {
        assert!(rt; is_right(rt.alloc(), case), "{}", case.name);
    }
}
