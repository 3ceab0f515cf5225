// The races of whole logs.

ghost use Rattle.std.specs.Prelude.{◌≡◌};
ghost use Rattle.log_form.specs.Events.{events_of};
ghost use Rattle.log_pieces.specs.Pieces.{events_of_pieces};
ghost use Rattle.log_tasks.specs.Rows.{AreNestedTasks};

use act_lines::{ActLine, lines_of_acts};
use fork_graph::Extent;
use log_pieces::{LogPiece, cut_log};
use log_races::{FoundRace, RacesError, log_races};
use log_tasks::{LogTasks, log_tasks};
use log_walk::SerialWalk;
use plain_vec::Listed;
use std::alloc::{AllocError, Global};

// A race by its block, where its stretch begins and ends, and the numbers of the two acts.
type Found = (u64, u64, u64, u32, u32);

struct Case {
    name: &'static str,
    files: &'static [&'static [u8]],
    races: &'static [Found],
}

const CASES: &[Case] = &[
    Case {
        name: "two tasks of a team write the same four bytes",
        files: &[
            b"hhlog 1\ns 0 0\n+ 1\n+ 2\ns 1 0\nw 1 53696 2004 @9700\nk 501\n.\ns 0 2\n- 2\n- 1\nr 1 55696 4 @9802\nk 1\n.\nend\n",
            b"hhlog 1\ns 2 0\nw 1 55696 2004 @9700\nk 501\n.\nend\n",
        ],
        races: &[(1, 55696, 55700, 2, 10)],
    },
    Case {
        name: "tasks are told before their spawns, in pieces and with gaps in their numbers",
        files: &[
            b"hhlog 1\ns 90 0\nr 7 0\n.\ns 0 0\nw 7 1\n+ 90\ns 40 0\nw 7 0\ns 0 2\n- 40\ns 0 1\n+ 40\ns 0 3\n- 90\n.\ns 40 0\n.\nend\n",
        ],
        races: &[(7, 0, 1, 0, 4)],
    },
    Case {
        name: "a reference is written where another task reads one",
        files: &[b"hhlog 1\ns 0 0\n+ 1\ng 3 2 0\n- 1\n.\ns 1 0\np 3 2 5\nR 3 4\nW 3 5 2\n.\nend\n"],
        races: &[(3, 2, 3, 4, 1)],
    },
    Case {
        name: "of a log that is cut, a strand after a gap is left out",
        files: &[b"hhlog 1\ns 0 0\n+ 1\n+ 2\ns 0 3\nw 1 0\ns 1 0\nw 1 0\n"],
        races: &[],
    },
    Case {
        name: "a release races with a read of a concurrent task",
        files: &[b"hhlog 1\ns 0 0\na 4 8\n+ 1\nf 4\n- 1\n.\ns 1 0\nr 4 2 3\n.\nend\n"],
        races: &[(4, 2, 5, 5, 2)],
    },
    Case {
        name: "a write races with the release of a concurrent task, which comes first in serial order",
        files: &[b"hhlog 1\ns 0 0\n+ 1\nW 4 0\n- 1\n.\ns 1 0\nf 4\n.\nend\n"],
        races: &[(4, 0, 1, 4, 1)],
    },
    Case {
        name: "a release after the join of the task that writes, and before a use that is stale",
        files: &[
            b"hhlog 1\ns 0 0\na 4 8\n+ 1\n- 1\nf 4\n+ 2\n- 2\n.\ns 1 0\nw 4 2\n.\ns 2 0\nr 4 2\n.\nend\n",
        ],
        races: &[],
    },
    Case {
        name: "a block that is never accessed is released",
        files: &[b"hhlog 1\ns 0 0\n+ 1\nf 9\nr 1 0\n- 1\n.\ns 1 0\nr 1 0\nr 2 9\n.\nend\n"],
        races: &[],
    },
    Case {
        name: "a release is of all accessed locations of its block, on each of its pages",
        files: &[
            b"hhlog 1\ns 0 0\n+ 1\nf 4\n- 1\nr 4 9\n.\ns 1 0\nr 4 1\nr 4 5000 2\nr 5 1\n.\nend\n",
        ],
        races: &[(4, 1, 2, 5, 1), (4, 5000, 5002, 6, 1)],
    },
    Case {
        name: "places that overlap are released once",
        files: &[b"hhlog 1\ns 0 0\n+ 1\nf 4\n- 1\n.\ns 1 0\nr 4 0 4\nr 4 2 4\n.\nend\n"],
        races: &[(4, 0, 2, 4, 1), (4, 2, 4, 5, 1), (4, 4, 6, 5, 1)],
    },
];

// The text of a file.
fn text_of(alloc: Global, file: &[u8]) -> Result<Listed<u8>, AllocError> {
    Ok(Listed::from_vec(file.to_vec(alloc)?))
}

fn texts_of(alloc: Global, files: &[&[u8]]) -> Result<Listed<Listed<u8>>, AllocError> {
    let mut texts = Listed::new(alloc);
    for file in files {
        texts.push(text_of(alloc, file)?)?;
    }
    Ok(texts)
}

fn is_found(found: &FoundRace, race: &Found) -> bool {
    let (block, start, end, first, second) = *race;
    found.block == block
        && found.slot.start == start
        && found.slot.end == end
        && found.race.first.line == first
        && found.race.second.line == second
}

fn are_found(found: &[FoundRace], races: &[Found]) -> bool {
    if found.len() != races.len() {
        return false;
    }
    for (found, race) in found.iter().zip(races) {
        if !is_found(found, race) {
            return false;
        }
    }
    true
}

// What the races of a log are to be.
#[derive(Clone, Copy)]
enum Outcome<'e> {
    Races(&'e [Found]),
    TooManyStretches,
}

fn is_it(
    alloc: Global,
    texts: &[Listed<u8>],
    pieces: &[LogPiece],
    tasks: &LogTasks,
    limit: usize,
    outcome: Outcome,
) -> bool
    requires pieces { events_of_pieces texts.now pieces.now ≡ events_of texts.now }
    requires nested { AreNestedTasks tasks.now.turns }
{
    let Ok(walk) = SerialWalk::new(alloc, &tasks.turns) else {
        return false;
    };
    match (
        log_races(alloc, texts, pieces, tasks, &walk, limit),
        outcome,
    ) {
        (Ok(scan), Outcome::Races(races)) => are_found(scan.races(), races),
        (Err(RacesError::TooManyStretches), Outcome::TooManyStretches) => true,
        _ => false,
    }
}

// Whether the races of files are to be these.
fn comes(alloc: Global, files: &[&[u8]], limit: usize, outcome: Outcome) -> bool {
    let Ok(texts) = texts_of(alloc, files) else {
        return false;
    };
    let Ok(log) = cut_log(alloc, texts.as_slice()) else {
        return false;
    };
    let extent = if log.is_cut {
        Extent::Cut
    } else {
        Extent::Whole
    };
    match log_tasks(alloc, texts.as_slice(), log.pieces.as_slice(), extent) {
        Ok(tasks) => is_it(
            alloc,
            texts.as_slice(),
            log.pieces.as_slice(),
            &tasks,
            limit,
            outcome,
        ),
        Err(_) => false,
    }
}

#[test]
fn races(rt: HostRuntime) {
    for case in CASES {
        assert!(rt;
            comes(rt.alloc(), case.files, 4, Outcome::Races(case.races)),
            "{}",
            case.name
        );
    }
}

#[test]
fn stretches_have_a_limit(rt: HostRuntime) {
    assert!(rt; comes(rt.alloc(), CASES[0].files, 3, Outcome::TooManyStretches));
}

// Where the line of an act stands, if it is there.
fn place_of(line: Option<ActLine>) -> Option<(usize, usize)> {
    match line {
        Some(line) => Some((line.at.file, line.at.line)),
        None => None,
    }
}

fn are_at(lines: &[Option<ActLine>], places: &[Option<(usize, usize)>]) -> bool {
    if lines.len() != places.len() {
        return false;
    }
    for (line, place) in lines.iter().zip(places) {
        if place_of(*line) != *place {
            return false;
        }
    }
    true
}

fn finds_lines(alloc: Global) -> bool {
    let Ok(texts) = texts_of(alloc, CASES[0].files) else {
        return false;
    };
    match lines_of_acts(alloc, texts.as_slice(), &[2, 10, 13]) {
        Ok(lines) => are_at(lines.as_slice(), &[Some((0, 6)), Some((1, 3)), None]),
        Err(_) => false,
    }
}

#[test]
fn lines_are_found(rt: HostRuntime) {
    assert!(rt; finds_lines(rt.alloc()));
}
