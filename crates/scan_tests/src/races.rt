// The race that is reported of a location's accesses.

use crate::order::Order;
use race_cells::CellAccessKind::{AtomicRead, AtomicWrite, PlainRead, PlainWrite};
use race_cells::{Cell, CellAccess, CellAccessKind};
use std::alloc::{AllocError, Global};

// Accesses by strand and kind, and the strands of the race that is reported.
struct Case {
    order: Order,
    accesses: &'static [(u32, CellAccessKind)],
    race: Option<(u32, u32)>,
}

const CASES: &[Case] = &[
    Case {
        order: Order::Parallel,
        accesses: &[(0, PlainRead), (1, PlainRead), (2, PlainRead)],
        race: None,
    },
    Case {
        order: Order::Parallel,
        accesses: &[(0, PlainRead), (1, PlainRead), (2, PlainWrite)],
        race: Some((0, 2)),
    },
    Case {
        order: Order::Parallel,
        accesses: &[(0, PlainWrite), (0, PlainRead), (0, PlainWrite)],
        race: None,
    },
    Case {
        order: Order::Parallel,
        accesses: &[(0, PlainWrite), (1, AtomicRead), (2, PlainWrite)],
        race: Some((0, 1)),
    },
    Case {
        order: Order::Parallel,
        accesses: &[(0, AtomicWrite), (1, AtomicWrite), (2, AtomicRead)],
        race: None,
    },
    Case {
        order: Order::Parallel,
        accesses: &[(0, AtomicWrite), (1, AtomicRead), (2, PlainRead)],
        race: Some((0, 2)),
    },
    Case {
        order: Order::Parallel,
        accesses: &[(0, AtomicRead), (1, PlainRead), (2, AtomicWrite)],
        race: Some((1, 2)),
    },
    Case {
        order: Order::Series,
        accesses: &[
            (0, PlainWrite),
            (1, PlainRead),
            (2, AtomicWrite),
            (3, PlainWrite),
        ],
        race: None,
    },
    Case {
        order: Order::Joined(3),
        accesses: &[
            (0, PlainRead),
            (1, PlainRead),
            (2, PlainRead),
            (3, PlainWrite),
        ],
        race: None,
    },
    Case {
        order: Order::Joined(3),
        accesses: &[
            (0, AtomicWrite),
            (1, AtomicWrite),
            (3, PlainWrite),
            (3, PlainRead),
        ],
        race: None,
    },
];

// The race that is reported, which is the first and the only one.
fn reported(alloc: Global, case: &Case) -> Result<Option<(u32, u32)>, AllocError> {
    let mut cell = Cell::new();
    let mut reported = None;
    for (strand, kind) in case.accesses {
        let access = CellAccess {
            strand: *strand,
            kind: *kind,
            line: 1,
        };
        if let Some(race) = cell.access(alloc, &case.order, access)? {
            if reported.is_some() {
                return Ok(None);
            }
            reported = Some((race.first.strand, race.second.strand));
        }
    }
    Ok(reported)
}

fn is_right(alloc: Global, case: &Case) -> bool {
    reported(alloc, case) == Ok(case.race)
}

#[test]
fn races(rt: HostRuntime) {
    for case in CASES {
        assert!(rt; is_right(rt.alloc(), case));
    }
}
