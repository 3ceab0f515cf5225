// The tasks of whole and of cut logs.

use fork_graph::{Extent, GraphTurn};
use log_pieces::{CutLog, OrNoMemory, cut_log};
use log_tasks::{LogTasks, TaskCause, TaskFault, log_tasks};
use plain_vec::Listed;
use std::alloc::{AllocError, Global};

// What a log's tasks are.
#[derive(Clone, Copy)]
enum Outcome {
    // The tasks' numbers in the log, the turns of each, and how many of these the log tells.
    Tasks(&'static [u32], &'static [&'static [GraphTurn]], &'static [usize]),
    // The task and the strand at fault, and the cause.
    Refused(u32, u32, TaskCause),
}

use GraphTurn::{Join, Spawn};

// Texts of a file that is whole or cut off, and what its tasks are.
const LOGS: &[(&[u8], Outcome)] = &[
    (
        b"hhlog 1\ns 0 0\n.\nend\n",
        Outcome::Tasks(&[0], &[&[]], &[0]),
    ),
    // tasks are numbered by their numbers' order, wherever they are spawned
    (
        b"hhlog 1\ns 0 0\n+ 9\n+ 7\n- 9\n- 7\n.\ns 9 0\n.\ns 7 0\n.\nend\n",
        Outcome::Tasks(
            &[0, 7, 9],
            &[&[Spawn(2), Spawn(1), Join(2), Join(1)], &[], &[]],
            &[4, 0, 0],
        ),
    ),
    // pieces of a strand may be apart
    (
        b"hhlog 1\ns 0 0\nr 1 1\ns 3 0\n.\ns 0 0\nw 1 1\n+ 3\n- 3\n.\nend\n",
        Outcome::Tasks(&[0, 3], &[&[Spawn(1), Join(1)], &[]], &[2, 0]),
    ),
    // a strand that is named and does nothing is none
    (
        b"hhlog 1\ns 5 0\ns 0 0\n.\nend\n",
        Outcome::Tasks(&[0], &[&[]], &[0]),
    ),
    (
        b"hhlog 1\nend\n",
        Outcome::Refused(0, 0, TaskCause::HasNoEnd),
    ),
    (
        b"hhlog 1\ns 0 0\n- 4\n.\nend\n",
        Outcome::Refused(0, 0, TaskCause::JoinsNoOpenChild),
    ),
    (
        b"hhlog 1\ns 0 0\n+ 4\n- 4\n- 4\n.\ns 4 0\n.\nend\n",
        Outcome::Refused(0, 2, TaskCause::JoinsNoOpenChild),
    ),
    (
        b"hhlog 1\ns 0 0\n+ 4\n- 5\n.\ns 4 0\n+ 5\n- 5\n.\ns 5 0\n.\nend\n",
        Outcome::Refused(0, 1, TaskCause::JoinsNoOpenChild),
    ),
    (
        b"hhlog 1\ns 0 0\n+ 4\n.\ns 4 0\n.\nend\n",
        Outcome::Refused(0, 1, TaskCause::LeavesUnjoined),
    ),
    (
        b"hhlog 1\ns 0 0\n+ 4\n- 4\n.\nend\n",
        Outcome::Refused(4, 0, TaskCause::HasNoEnd),
    ),
    (
        b"hhlog 1\ns 0 0\n.\ns 2 0\n.\nend\n",
        Outcome::Refused(2, 0, TaskCause::IsUnreached),
    ),
    (
        b"hhlog 1\ns 0 0\n.\ns 0 3\nk 1\nend\n",
        Outcome::Refused(0, 0, TaskCause::GoesOnAfterEnd),
    ),
    // the lowest task at fault is reported
    (
        b"hhlog 1\ns 0 0\n+ 4\n+ 2\n- 4\n- 2\n.\ns 4 0\n+ 6\n.\nend\n",
        Outcome::Refused(2, 0, TaskCause::HasNoEnd),
    ),
    // a cut log has joins of what is unjoined
    (b"hhlog 1\n", Outcome::Tasks(&[0], &[&[]], &[0])),
    (
        b"hhlog 1\ns 0 0\n+ 1\n+ 2\nr 1 1\n",
        Outcome::Tasks(
            &[0, 1, 2],
            &[&[Spawn(1), Spawn(2), Join(2), Join(1)], &[], &[]],
            &[2, 0, 0],
        ),
    ),
    (
        b"hhlog 1\ns 0 0\n+ 1\n- 1\n+ 2\ns 0 7\nr 1 1\n.\ns 8 0\n.\n",
        Outcome::Tasks(
            &[0, 1, 2, 8],
            &[&[Spawn(1), Join(1), Spawn(2), Join(2)], &[], &[], &[]],
            &[3, 0, 0, 0],
        ),
    ),
    (
        b"hhlog 1\ns 0 0\n+ 1\n- 2\n",
        Outcome::Refused(0, 1, TaskCause::JoinsNoOpenChild),
    ),
];

fn same_turn(one: GraphTurn, other: GraphTurn) -> bool {
    match (one, other) {
        (Spawn(a), Spawn(b)) => a == b,
        (Join(a), Join(b)) => a == b,
        _ => false,
    }
}

fn same_turns(turns: &[GraphTurn], expected: &[GraphTurn]) -> bool {
    if turns.len() != expected.len() {
        return false;
    }
    turns.iter().zip(expected).all(|(a, b)| same_turn(*a, *b))
}

fn same_rows(rows: &Listed<Listed<GraphTurn>>, expected: &[&[GraphTurn]]) -> bool {
    if rows.len() != expected.len() {
        return false;
    }
    for (task, turns) in expected.iter().enumerate() {
        let same = match rows.get(task) {
            Some(row) => same_turns(row.as_slice(), turns),
            None => false,
        };
        if !same {
            return false;
        }
    }
    true
}

// Whether tasks, or a fault, are what they should be.
fn is_outcome(found: &Result<LogTasks, OrNoMemory<TaskFault>>, outcome: Outcome) -> bool {
    match (found, outcome) {
        (Ok(tasks), Outcome::Tasks(numbers, rows, known)) => {
            tasks.numbers.as_slice() == numbers
                && same_rows(&tasks.turns, rows)
                && tasks.known.as_slice() == known
        }
        (Err(OrNoMemory::Refused(fault)), Outcome::Refused(task, strand, cause)) => {
            fault.strand.task == task && fault.strand.index == strand && fault.cause == cause
        }
        _ => false,
    }
}

// The tasks of a text.
fn tasks_of(alloc: Global, text: &[u8]) -> Option<Result<LogTasks, OrNoMemory<TaskFault>>> {
    let mut texts = Listed::new(alloc);
    let copy = text.to_vec(alloc).ok()?;
    texts.push(Listed::from_vec(copy)).ok()?;
    match cut_log(alloc, texts.as_slice()) {
        Ok(CutLog { pieces, is_cut }) => {
            let extent = if is_cut { Extent::Cut } else { Extent::Whole };
            Some(log_tasks(alloc, texts.as_slice(), pieces.as_slice(), extent))
        }
        Err(_) => None,
    }
}

fn has_outcome(alloc: Global, text: &[u8], outcome: Outcome) -> bool {
    match tasks_of(alloc, text) {
        Some(found) => is_outcome(&found, outcome),
        None => false,
    }
}

#[test]
fn tasks_are_found(rt: HostRuntime) {
    for (text, outcome) in LOGS {
        assert!(rt; has_outcome(rt.alloc(), text, *outcome));
    }
}
