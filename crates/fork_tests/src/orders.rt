// Which strands of runs precede which.

use crate::runs::{Table, lists};
use fork_graph::GraphTurn::{Join, Spawn};
use fork_graph::{Extent, GraphTurn, are_small, first_fault};
use log_walk::SerialWalk;
use plain_vec::Listed;
use std::alloc::Global;

struct Case {
    table: Table,
    // The tasks of the strands, in their serial order.
    order: &'static [u32],
    // For each strand a row with a 1 for each strand that it precedes, as the edges say.
    precedes: &'static [&'static [u8]],
}

const CASES: &[Case] = &[
    Case {
        table: &[&[]],
        order: &[0],
        precedes: &[b"1"],
    },
    Case {
        table: &[
            &[Spawn(1), Spawn(2), Join(2), Join(1)],
            &[Spawn(3), Join(3)],
            &[],
            &[],
        ],
        order: &[0, 1, 3, 1, 1, 0, 2, 0, 0, 0],
        precedes: &[
            b"1111111111",
            b"0111100001",
            b"0010100001",
            b"0001100001",
            b"0000100001",
            b"0000011111",
            b"0000001011",
            b"0000000111",
            b"0000000011",
            b"0000000001",
        ],
    },
    Case {
        table: &[&[Spawn(1), Spawn(2), Join(1), Join(2)], &[], &[]],
        order: &[0, 1, 0, 2, 0, 0, 0],
        precedes: &[
            b"1111111", b"0100011", b"0011111", b"0001001", b"0000111", b"0000011", b"0000001",
        ],
    },
];

fn has_order(walk: &SerialWalk, order: &[u32]) -> bool {
    let strands = walk.order();
    if strands.len() != order.len() {
        return false;
    }
    for (strand, task) in strands.iter().zip(order) {
        if strand.task != *task {
            return false;
        }
    }
    true
}

fn has_row(walk: &SerialWalk, first: usize, row: &[u8]) -> bool {
    let count = walk.order().len();
    if first >= count || row.len() != count {
        return false;
    }
    for (second, digit) in row.iter().enumerate() {
        if second < count && walk.precedes(first, second) != (*digit == b'1') {
            return false;
        }
    }
    true
}

fn has_rows(walk: &SerialWalk, rows: &[&[u8]]) -> bool {
    for (first, row) in rows.iter().enumerate() {
        if !has_row(walk, first, row) {
            return false;
        }
    }
    true
}

fn is_walked(alloc: Global, tasks: &Listed<Listed<GraphTurn>>, case: &Case) -> bool {
    if tasks.is_empty() || !are_small(tasks) {
        return false;
    }
    let Ok(None) = first_fault(alloc, tasks, Extent::Whole) else {
        return false;
    };
    match SerialWalk::new(alloc, tasks) {
        Ok(walk) => has_order(&walk, case.order) && has_rows(&walk, case.precedes),
        Err(_) => false,
    }
}

fn is_right(alloc: Global, case: &Case) -> bool {
    match lists(alloc, case.table) {
        Ok(tasks) => is_walked(alloc, &tasks, case),
        Err(_) => false,
    }
}

#[test]
fn orders_and_precedence(rt: HostRuntime) {
    for case in CASES {
        assert!(rt; is_right(rt.alloc(), case));
    }
}

// A chain of so many nested forks.
fn chain(alloc: Global, count: u32) -> Option<Listed<Listed<GraphTurn>>> {
    let mut tasks = Listed::new(alloc);
    for child in 1..count {
        let mut turns = Listed::new(alloc);
        turns.push_pair(Spawn(child), Join(child)).ok()?;
        tasks.push(turns).ok()?;
    }
    tasks.push(Listed::new(alloc)).ok()?;
    Some(tasks)
}

fn chain_is_walked(alloc: Global, count: u32) -> bool {
    let Some(tasks) = chain(alloc, count) else {
        return false;
    };
    if tasks.is_empty() || !are_small(&tasks) {
        return false;
    }
    let Ok(None) = first_fault(alloc, &tasks, Extent::Whole) else {
        return false;
    };
    match SerialWalk::new(alloc, &tasks) {
        Ok(walk) => chain_is_right(&walk, count as usize),
        Err(_) => false,
    }
}

// The innermost task's strand stands behind the first ones of all others, and the other two of each task follow, those
// of the innermost task first. A task's strand beside its child is in no order with what is below that.
fn chain_is_right(walk: &SerialWalk, count: usize) -> bool {
    let strands = walk.order().len();
    if count < 3 || count > 1_000_000 || strands != 3 * (count - 1) + 1 {
        return false;
    }
    let last = strands - 1;
    let inner = count - 1;
    walk.precedes(0, last)
        && walk.precedes(1, 2)
        && !walk.precedes(2, 1)
        && !walk.precedes(inner, inner + 1)
        && !walk.precedes(inner + 1, inner)
        && walk.precedes(inner, inner + 2)
        && !walk.precedes(inner, inner + 3)
        && walk.precedes(inner, inner + 4)
        && !walk.precedes(inner, last - 1)
        && walk.precedes(inner, last)
}

#[test]
fn deep_chain(rt: HostRuntime) {
    assert!(rt; chain_is_walked(rt.alloc(), 100_000));
}
