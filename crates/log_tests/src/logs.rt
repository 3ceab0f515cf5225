// Whole logs, of one file and of several.

use log_form::{LocatedFault, LogFault, LogPosition};
use log_lines::LogCause;
use log_pieces::{OrNoMemory, cut_log};
use plain_vec::Listed;
use std::alloc::{AllocError, Global};

// What a log's files have.
#[derive(Clone, Copy, PartialEq, Eq)]
enum Outcome {
    Whole,
    CutOff,
    // The number of the file, that of the line, and its fault.
    Faulty(usize, usize, LogFault),
}

// The texts of files, and what they are.
const LOGS: &[(&[&[u8]], Outcome)] = &[
    (&[], Outcome::Whole),
    (&[b"hhlog 1\nend\n"], Outcome::Whole),
    (
        &[b"hhlog 1\n# c\n\ns 0 0\nr 1 0\n+ 1\nk 2\n- 1\n.\ns 1 0\n.\nend\n"],
        Outcome::Whole,
    ),
    // what stands behind the last line feed is no line
    (&[b"hhlog 1\ns 0 0\n.\nend\nr"], Outcome::Whole),
    // pieces stand in any order, over all files
    (
        &[
            b"hhlog 1\ns 0 1\n- 1\n.\ns 0 0\nr 1 0\nend\n",
            b"hhlog 1\ns 1 0\n.\ns 0 0\n+ 1\nend\n",
        ],
        Outcome::Whole,
    ),
    // a strand that has ended may be told again, if nothing follows on it
    (
        &[b"hhlog 1\ns 0 0\n+ 1\ns 0 0\ns 0 1\n- 1\n.\ns 1 0\n.\nend\n"],
        Outcome::Whole,
    ),
    (
        &[b"hhlog 1\na 1 8\nend\n"],
        Outcome::Faulty(0, 2, LogFault::NoStrand),
    ),
    (&[b"hhlog 1\ns 0 0\nr 1 0"], Outcome::CutOff),
    (&[b"hhlog 1\n"], Outcome::CutOff),
    (&[b"hhlog 1\nend\n", b"hhlog 1\ns 0 0\n"], Outcome::CutOff),
    (&[b""], Outcome::Faulty(0, 1, LogFault::NoVersion)),
    (&[b"hhlog 1"], Outcome::Faulty(0, 1, LogFault::NoVersion)),
    (&[b"\n"], Outcome::Faulty(0, 1, LogFault::NoVersion)),
    (&[b"end\n"], Outcome::Faulty(0, 1, LogFault::NoVersion)),
    (&[b"nonsense\n"], Outcome::Faulty(0, 1, LogFault::NoVersion)),
    (
        &[b"hhlog 2\n"],
        Outcome::Faulty(0, 1, LogFault::NoLine(LogCause::UnknownVersion)),
    ),
    (
        &[b"hhlog 1\nhhlog 1\n"],
        Outcome::Faulty(0, 2, LogFault::NoVersion),
    ),
    (
        &[b"hhlog 1\nend\n\n"],
        Outcome::Faulty(0, 3, LogFault::AfterEnd),
    ),
    (
        &[b"hhlog 1\nend\nx\n"],
        Outcome::Faulty(0, 3, LogFault::AfterEnd),
    ),
    (
        &[b"hhlog 1\nend\nend\n"],
        Outcome::Faulty(0, 3, LogFault::AfterEnd),
    ),
    (
        &[b"hhlog 1\n\nx\n"],
        Outcome::Faulty(0, 3, LogFault::NoLine(LogCause::BadWord)),
    ),
    (
        &[b"hhlog 1\ns 0 0\nr 1\n"],
        Outcome::Faulty(0, 3, LogFault::NoLine(LogCause::WrongCount)),
    ),
    (
        &[b"hhlog 1\ns 0 0\n.\nk 1\n"],
        Outcome::Faulty(0, 4, LogFault::NoStrand),
    ),
    // a strand that is open in one file is open in no other
    (
        &[b"hhlog 1\ns 0 0\nend\n", b"hhlog 1\nk 1\n"],
        Outcome::Faulty(1, 2, LogFault::NoStrand),
    ),
    (
        &[b"hhlog 1\ns 0 0\n.\ns 0 0\nk 1\n"],
        Outcome::Faulty(0, 5, LogFault::StrandEnded),
    ),
    (
        &[b"hhlog 1\ns 0 1\n.\ns 0 0\n+ 1\nk 1\n"],
        Outcome::Faulty(0, 6, LogFault::StrandEnded),
    ),
    (
        &[b"hhlog 1\ns 0 0\n+ 1\nend\n", b"hhlog 1\ns 0 0\n.\n"],
        Outcome::Faulty(1, 3, LogFault::StrandEnded),
    ),
    (
        &[b"hhlog 1\ns 0 0\n+ 0\n"],
        Outcome::Faulty(0, 3, LogFault::SpawnedTwice),
    ),
    (
        &[b"hhlog 1\ns 0 0\n+ 1\n+ 2\n+ 1\n"],
        Outcome::Faulty(0, 5, LogFault::SpawnedTwice),
    ),
    (
        &[b"hhlog 1\ns 0 0\na 1 2\na 1 2\n"],
        Outcome::Faulty(0, 4, LogFault::BornTwice),
    ),
    (
        &[b"hhlog 1\ns 0 0\na 1 2\nf 1\na 1 2\n"],
        Outcome::Faulty(0, 5, LogFault::BornTwice),
    ),
    (
        &[b"hhlog 1\ns 0 0\nf 1\nf 1\n"],
        Outcome::Faulty(0, 4, LogFault::ReleasedTwice),
    ),
    (
        &[b"hhlog 1\ns 0 2147483647\nr 1 0\n- 1\n"],
        Outcome::Faulty(0, 4, LogFault::NoLine(LogCause::OverLimit)),
    ),
    // a file that is given twice
    (
        &[b"hhlog 1\ns 0 0\n.\nend\n", b"hhlog 1\ns 0 0\n.\nend\n"],
        Outcome::Faulty(1, 3, LogFault::StrandEnded),
    ),
];

// The texts as they are read.
fn texts_of(alloc: Global, texts: &[&[u8]]) -> Result<Listed<Listed<u8>>, AllocError> {
    let mut read = Listed::new(alloc);
    for text in texts {
        read.push(Listed::from_vec(text.to_vec(alloc)?))?;
    }
    Ok(read)
}

// What a log's files have; None where memory ran out.
fn outcome_of(alloc: Global, texts: &[&[u8]]) -> Option<Outcome> {
    match texts_of(alloc, texts) {
        Err(AllocError) => None,
        Ok(texts) => match cut_log(alloc, texts.as_slice()) {
            Ok(log) if log.is_cut => Some(Outcome::CutOff),
            Ok(_) => Some(Outcome::Whole),
            Err(
                OrNoMemory::Refused(
                    LocatedFault {
                        at: LogPosition { file, line },
                        fault,
                    },
                ),
            ) => Some(Outcome::Faulty(file, line, fault)),
            Err(OrNoMemory::NoMemory) => None,
        },
    }
}

#[test]
fn logs_are_whole_or_faulty(rt: HostRuntime) {
    for (texts, answer) in LOGS {
        assert!(rt; outcome_of(rt.alloc(), texts) == Some(*answer));
    }
}

// The pieces of a log: the task and the number of the strand, the file, and where they begin and end.
const PIECES: &[(u32, u32, usize, usize, usize)] = &[
    (0, 0, 0, 14, 24),
    (0, 1, 0, 24, 30),
    (1, 0, 0, 36, 38),
    (0, 1, 1, 14, 18),
    (0, 2, 1, 18, 20),
];

const CUT_UP: &[&[u8]] = &[
    b"hhlog 1\ns 0 0\nr 1 0\n+ 1\nr 2 0\ns 1 0\n.\nend\n",
    b"hhlog 1\ns 0 1\n- 1\n.\nend\n",
];

// Whether the pieces are these.
fn are_pieces(alloc: Global) -> bool {
    match texts_of(alloc, CUT_UP) {
        Err(AllocError) => false,
        Ok(texts) => match cut_log(alloc, texts.as_slice()) {
            Ok(log) => {
                let mut same = log.pieces.len() == PIECES.len();
                for (piece, (task, index, file, begin, end)) in log
                    .pieces
                    .as_slice()
                    .iter()
                    .zip(PIECES)
                {
                    same = same
                        && piece.strand.task == *task
                        && piece.strand.index == *index
                        && piece.file == *file
                        && piece.begin == *begin
                        && piece.end == *end;
                }
                same
            }
            Err(_) => false,
        },
    }
}

#[test]
fn logs_are_cut_into_pieces(rt: HostRuntime) {
    assert!(rt; are_pieces(rt.alloc()));
}
