// The first faults of runs.

use crate::runs::{Table, lists};
use fork_graph::GraphTurn::{Join, Spawn};
use fork_graph::{Extent, GraphTurn, StrandCause, StrandFault, are_small, first_fault};
use std::alloc::Global;

struct Case {
    name: &'static str,
    table: Table,
    // The first fault of the run as a whole one, and as a cut one: the strand and the number of the cause.
    whole: Option<(u32, u32, u32)>,
    cut: Option<(u32, u32, u32)>,
}

const CASES: &[Case] = &[
    Case {
        name: "one task without turns",
        table: &[&[]],
        whole: None,
        cut: None,
    },
    Case {
        name: "two children, joined first in first out",
        table: &[&[Spawn(1), Spawn(2), Join(1), Join(2)], &[], &[]],
        whole: None,
        cut: None,
    },
    Case {
        name: "children with lower numbers than their parents",
        table: &[&[Spawn(2), Join(2)], &[], &[Spawn(1), Join(1)]],
        whole: None,
        cut: None,
    },
    Case {
        name: "a spawn of the root",
        table: &[&[Spawn(1), Join(1)], &[Spawn(0)]],
        whole: Some((1, 0, 0)),
        cut: Some((1, 0, 0)),
    },
    Case {
        name: "a task that is spawned twice, the second time by a higher task",
        table: &[
            &[Spawn(1), Spawn(2), Join(2), Join(1)],
            &[Spawn(2), Join(2)],
            &[],
        ],
        whole: Some((1, 0, 0)),
        cut: Some((1, 0, 0)),
    },
    Case {
        name: "a spawn of a task that isn't there",
        table: &[&[Spawn(1), Join(1)]],
        whole: Some((0, 0, 0)),
        cut: Some((0, 0, 0)),
    },
    Case {
        name: "a join of a child of a child",
        table: &[&[Spawn(1), Join(2), Join(1)], &[Spawn(2)], &[]],
        whole: Some((0, 1, 1)),
        cut: Some((0, 1, 1)),
    },
    Case {
        name: "a child that is joined twice",
        table: &[&[Spawn(1), Join(1), Join(1)], &[]],
        whole: Some((0, 2, 1)),
        cut: Some((0, 2, 1)),
    },
    Case {
        name: "a join before the spawn",
        table: &[&[Join(1), Spawn(1)], &[]],
        whole: Some((0, 0, 1)),
        cut: Some((0, 0, 1)),
    },
    Case {
        name: "a child that isn't joined",
        table: &[&[Spawn(1), Join(1)], &[Spawn(2)], &[]],
        whole: Some((1, 1, 2)),
        cut: None,
    },
    Case {
        name: "two tasks that spawn each other",
        table: &[&[], &[Spawn(2), Join(2)], &[Spawn(1), Join(1)]],
        whole: Some((1, 2, 3)),
        cut: None,
    },
    Case {
        name: "an unreached task before a bad join",
        table: &[&[Spawn(2), Join(2)], &[], &[Join(2)]],
        whole: Some((1, 0, 3)),
        cut: Some((2, 0, 1)),
    },
];

fn number(cause: StrandCause) -> u32 {
    match cause {
        StrandCause::SpawnsNoNewTask => 0,
        StrandCause::JoinsNoOpenChild => 1,
        StrandCause::LeavesUnjoined => 2,
        StrandCause::IsUnreached => 3,
    }
}

fn found(alloc: Global, table: Table, extent: Extent) -> Option<Option<StrandFault>> {
    let Ok(tasks) = lists(alloc, table) else {
        return None;
    };
    if !are_small(&tasks) {
        return None;
    }
    first_fault(alloc, &tasks, extent).ok()
}

// Whether the first fault is this one.
fn finds(alloc: Global, table: Table, extent: Extent, wanted: Option<(u32, u32, u32)>) -> bool {
    match (found(alloc, table, extent), wanted) {
        (Some(None), None) => true,
        (Some(Some(fault)), Some((task, index, cause))) => {
            fault.strand.task == task && fault.strand.index == index && number(fault.cause) == cause
        }
        _ => false,
    }
}

#[test]
fn first_faults(rt: HostRuntime) {
    for case in CASES {
        assert!(rt;
            finds(rt.alloc(), case.table, Extent::Whole, case.whole),
            "{}",
            case.name
        );
        assert!(rt;
            finds(rt.alloc(), case.table, Extent::Cut, case.cut),
            "{}",
            case.name
        );
    }
}
