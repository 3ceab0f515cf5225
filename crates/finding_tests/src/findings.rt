// Work and span of logs, and reads and uses of blocks that come too early or too late.

ghost use Rattle.std.specs.Prelude.{◌≡◌};
ghost use Rattle.finding_tests.specs.Read.{IsLogRead};

use fork_graph::Extent;
use log_births::{Finding, Findings, find_uses};
use log_pieces::{CutLog, LogPiece, cut_log};
use log_tasks::{LogTasks, log_tasks};
use log_walk::SerialWalk;
use log_weights::{CostError, work_and_span};
use plain_vec::Listed;
use std::alloc::Global;

// The block, the number of the act, and that of the birth or the release.
type Row = (u64, u32, u32);

struct Case {
    text: &'static [u8],
    // The work and the span; None if the work doesn't fit.
    cost: Option<(u64, u64)>,
    reads: &'static [Row],
    uses: &'static [Row],
    stale: &'static [Row],
}

const CASES: &[Case] = &[
    Case {
        text: b"hhlog 1\ns 0 0\n.\nend\n",
        cost: Some((0, 0)),
        reads: &[],
        uses: &[],
        stale: &[],
    },
    Case {
        text: b"hhlog 1\ns 0 0\nk 1\n+ 1\nk 2\n+ 2\nk 3\n- 2\n- 1\nk 4\n.\ns 1 0\nk 10\nk 5\n.\ns 2 0\nk 7\n.\nend\n",
        cost: Some((32, 20)),
        reads: &[],
        uses: &[],
        stale: &[],
    },
    Case {
        text: b"hhlog 1\ns 0 0\n+ 1\n+ 2\n- 2\n- 1\nr 5 0\n.\ns 1 0\na 5 8\nw 5 0\n.\ns 2 0\ng 1 0 5\nr 5 3 2\np 5 1 0\ng 1 1 0\n.\nend\n",
        cost: Some((0, 0)),
        reads: &[(5, 9, 6)],
        uses: &[(5, 10, 6), (5, 11, 6)],
        stale: &[],
    },
    Case {
        text: b"hhlog 1\ns 0 0\nr 5 0\ns 0 0\na 5 8\n.\nend\n",
        cost: Some((0, 0)),
        reads: &[],
        uses: &[],
        stale: &[],
    },
    Case {
        text: b"hhlog 1\ns 0 0\na 5 8\nf 5\nr 5 1\n+ 1\nw 5 2\n- 1\nR 5 0 @3\n.\ns 1 0\ng 5 0 9\n.\nend\n",
        cost: Some((0, 0)),
        reads: &[],
        uses: &[],
        stale: &[(5, 4, 1), (5, 6, 1), (5, 8, 1)],
    },
    Case {
        text: b"hhlog 1\ns 0 0\na 5 8\n+ 1\nw 5 2\n- 1\nr 5 0\n.\ns 1 0\nf 5\n.\nend\n",
        cost: Some((0, 0)),
        reads: &[],
        uses: &[],
        stale: &[(5, 4, 6)],
    },
    Case {
        text: b"hhlog 1\ns 9 0\na 2 4\nk 3\n.\ns 4 0\ng 7 0 2\nk 6\n.\ns 0 0\nk 1\n+ 9\n+ 4\n- 4\n- 9\ng 7 0 2\n.\nend\n",
        cost: Some((10, 7)),
        reads: &[(2, 3, 0)],
        uses: &[],
        stale: &[],
    },
    Case {
        text: b"hhlog 1\ns 0 0\nk 1\n+ 1\nr 5 0\ns 0 5\na 5 8\nk 100\n.\ns 3 0\na 6 1\nk 7\ns 1 0\nr 6 0\na 8 1\nk 2\ns 0 1\nr 8 0\n",
        cost: Some((3, 3)),
        reads: &[],
        uses: &[(8, 11, 9)],
        stale: &[],
    },
    Case {
        text: b"hhlog 1\ns 0 0\n+ 1\ng 1 0 0\nr 0 1\n- 1\n.\ns 1 0\na 0 4\n.\nend\n",
        cost: Some((0, 0)),
        reads: &[],
        uses: &[(0, 2, 5)],
        stale: &[],
    },
    // 30 times 999,999,999,999,999,999 is over 2^64
    Case {
        text: b"hhlog 1\ns 0 0\nk 999999999999999999\nk 999999999999999999\nk 999999999999999999\nk 999999999999999999\nk 999999999999999999\nk 999999999999999999\nk 999999999999999999\nk 999999999999999999\nk 999999999999999999\nk 999999999999999999\nk 999999999999999999\nk 999999999999999999\nk 999999999999999999\nk 999999999999999999\nk 999999999999999999\nk 999999999999999999\nk 999999999999999999\nk 999999999999999999\nk 999999999999999999\nk 999999999999999999\nk 999999999999999999\nk 999999999999999999\nk 999999999999999999\nk 999999999999999999\nk 999999999999999999\nk 999999999999999999\nk 999999999999999999\nk 999999999999999999\nk 999999999999999999\nk 999999999999999999\n.\nend\n",
        cost: None,
        reads: &[],
        uses: &[],
        stale: &[],
    },
];

fn is_row(found: &Finding, row: Row) -> bool {
    found.block == row.0 && found.line == row.1 && found.other == row.2
}

fn are_rows(found: &Listed<Finding>, rows: &[Row]) -> bool {
    if found.len() != rows.len() {
        return false;
    }
    found
        .as_slice()
        .iter()
        .zip(rows)
        .all(|(f, row)| is_row(f, *row))
}

fn are_findings(found: &Findings, case: &Case) -> bool {
    are_rows(&found.reads, case.reads)
        && are_rows(&found.uses, case.uses)
        && are_rows(&found.stale, case.stale)
}

// Whether the tasks of a log have the work, the span and the findings of the case.
fn is_right(
    alloc: Global,
    texts: &[Listed<u8>],
    pieces: &[LogPiece],
    tasks: &LogTasks,
    case: &Case,
) -> bool
    requires { IsLogRead texts.now pieces.now tasks.now }
{
    match SerialWalk::new(alloc, &tasks.turns) {
        Err(_) => false,
        Ok(walk) => {
            has_cost(alloc, texts, pieces, tasks, &walk, case.cost)
                && has_findings(alloc, texts, pieces, tasks, &walk, case)
        }
    }
}

fn has_cost(
    alloc: Global,
    texts: &[Listed<u8>],
    pieces: &[LogPiece],
    tasks: &LogTasks,
    walk: &SerialWalk,
    cost: Option<(u64, u64)>,
) -> bool
    requires read { IsLogRead texts.now pieces.now tasks.now }
    requires walk { walk.now.tasks ≡ tasks.now.turns }
{
    match (work_and_span(alloc, texts, pieces, tasks, walk), cost) {
        (Ok(found), Some((work, span))) => found.work == work && found.span == span,
        (Err(CostError::TooMuchWork), None) => true,
        _ => false,
    }
}

fn has_findings(
    alloc: Global,
    texts: &[Listed<u8>],
    pieces: &[LogPiece],
    tasks: &LogTasks,
    walk: &SerialWalk,
    case: &Case,
) -> bool
    requires read { IsLogRead texts.now pieces.now tasks.now }
    requires walk { walk.now.tasks ≡ tasks.now.turns }
{
    match find_uses(alloc, texts, pieces, tasks, walk) {
        Ok(found) => are_findings(&found, case),
        Err(_) => false,
    }
}

// Whether a log is as the case says.
fn holds(alloc: Global, texts: &[Listed<u8>], case: &Case) -> bool {
    match cut_log(alloc, texts) {
        Err(_) => false,
        Ok(CutLog { pieces, is_cut }) => {
            let extent = if is_cut { Extent::Cut } else { Extent::Whole };
            match log_tasks(alloc, texts, pieces.as_slice(), extent) {
                Ok(tasks) => is_right(alloc, texts, pieces.as_slice(), &tasks, case),
                Err(_) => false,
            }
        }
    }
}

// The text of a case, as a log of one file.
fn texts_of(alloc: Global, text: &[u8]) -> Option<Listed<Listed<u8>>> {
    let mut texts = Listed::new(alloc);
    let copy = text.to_vec(alloc).ok()?;
    texts.push(Listed::from_vec(copy)).ok()?;
    Some(texts)
}

#[test]
fn costs_and_findings_are_found(rt: HostRuntime) {
    for case in CASES {
        let holds = match texts_of(rt.alloc(), case.text) {
            Some(texts) => holds(rt.alloc(), texts.as_slice(), case),
            None => false,
        };
        assert!(rt; holds);
    }
}
