// Work and span of runs.

use crate::runs::{Table, lists};
use fork_graph::GraphTurn::{Join, Spawn};
use fork_graph::{Extent, GraphTurn, are_small, first_fault};
use log_walk::SerialWalk;
use plain_vec::Listed;
use run_span::{span_of, total_work};
use std::alloc::Global;

struct Case {
    table: Table,
    // The weights of the strands, in their serial order.
    weights: &'static [u64],
    work: u64,
    span: u64,
}

const CASES: &[Case] = &[
    Case {
        table: &[&[]],
        weights: &[5],
        work: 5,
        span: 5,
    },
    // The root's first strand, the first child, and the root after each join: 1 + 10 + 1 + 1.
    Case {
        table: &[&[Spawn(1), Spawn(2), Join(1), Join(2)], &[], &[]],
        weights: &[1, 10, 2, 3, 4, 1, 1],
        work: 22,
        span: 13,
    },
    // The root's first two strands, the second child, and the root after each join: 1 + 1 + 20 + 1 + 1.
    Case {
        table: &[
            &[Spawn(1), Spawn(2), Join(2), Join(1)],
            &[Spawn(3), Join(3)],
            &[],
            &[],
        ],
        weights: &[1, 1, 7, 2, 1, 1, 20, 1, 1, 1],
        work: 36,
        span: 24,
    },
    // The grandchild's way: 1 + 1 + 30 + 1 + 1.
    Case {
        table: &[
            &[Spawn(1), Spawn(2), Join(2), Join(1)],
            &[Spawn(3), Join(3)],
            &[],
            &[],
        ],
        weights: &[1, 1, 30, 2, 1, 1, 20, 1, 1, 1],
        work: 59,
        span: 34,
    },
];

fn has_span(alloc: Global, tasks: &Listed<Listed<GraphTurn>>, case: &Case) -> bool {
    if tasks.is_empty() || !are_small(tasks) {
        return false;
    }
    let Ok(None) = first_fault(alloc, tasks, Extent::Whole) else {
        return false;
    };
    let Ok(walk) = SerialWalk::new(alloc, tasks) else {
        return false;
    };
    let order = walk.order();
    if case.weights.len() != order.len() || total_work(case.weights) != Some(case.work) {
        return false;
    }
    match span_of(alloc, tasks, order, case.weights) {
        Ok(span) => span == case.span,
        Err(_) => false,
    }
}

fn is_right(alloc: Global, case: &Case) -> bool {
    match lists(alloc, case.table) {
        Ok(tasks) => has_span(alloc, &tasks, case),
        Err(_) => false,
    }
}

#[test]
fn work_and_span(rt: HostRuntime) {
    for case in CASES {
        assert!(rt; is_right(rt.alloc(), case));
    }
}
