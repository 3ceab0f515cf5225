// Lines of logs.

use log_lines::{Access, AccessKind, Act, LogCause, LogLine, LogPlace, Reference, read_line};

// A place: its block, its offset, the length of its runs, their number, and how far apart they are.
type Numbers = (u64, u64, u64, u64, u64);

// Accesses: the line, the kind, the place and the site.
const ACCESSES: &[(&[u8], AccessKind, Numbers, Option<u64>)] = &[
    (b"r 5 7", AccessKind::Read, (5, 7, 1, 1, 1), None),
    (b"w 5 7 @0", AccessKind::Write, (5, 7, 1, 1, 1), Some(0)),
    (b"R 5 7 1", AccessKind::AtomicRead, (5, 7, 1, 1, 1), None),
    (
        b"W 5 7 1 1 1 @9",
        AccessKind::AtomicWrite,
        (5, 7, 1, 1, 1),
        Some(9),
    ),
    (b"w 0 0 4 3 10", AccessKind::Write, (0, 0, 4, 3, 10), None),
    (b"r 1 2 8 @1", AccessKind::Read, (1, 2, 8, 1, 8), Some(1)),
    (
        b"r 999999999999999999 999999999999999999 268435456",
        AccessKind::Read,
        (
            999999999999999999,
            999999999999999999,
            268435456,
            1,
            268435456,
        ),
        None,
    ),
    (
        b"r 0 0 1 2 999999999999999999",
        AccessKind::Read,
        (0, 0, 1, 2, 999999999999999999),
        None,
    ),
];

// Other lines, and what they say.
const LINES: &[(&[u8], LogLine)] = &[
    (b"", LogLine::Comment),
    (b"#", LogLine::Comment),
    (b"#r 5 7 x \xff", LogLine::Comment),
    (b"hhlog 1", LogLine::Version),
    (b"end", LogLine::End),
    (
        b"a 5 0",
        LogLine::Act(Act::Birth {
            block: 5,
            length: 0,
        }),
    ),
    (b"f 5", LogLine::Act(Act::Release(5))),
    (
        b"k 999999999999999999",
        LogLine::Act(Act::Work(999999999999999999)),
    ),
    (
        b"s 4294967295 2147483647",
        LogLine::Strand {
            task: 4294967295,
            strand: 2147483647,
        },
    ),
    (b"+ 4294967295", LogLine::Act(Act::Spawn(4294967295))),
    (b"- 0", LogLine::Act(Act::Join(0))),
    (b".", LogLine::Act(Act::Finish)),
    (b"@ 3 sort.c:12  (inner) ", LogLine::Name(3)),
    (b"@ 3 ", LogLine::Name(3)),
];

// What is no line, and why.
const BAD: &[(&[u8], LogCause)] = &[
    (b" ", LogCause::BadWord),
    (b"x", LogCause::BadWord),
    (b"rr 5 7", LogCause::BadWord),
    (b" r 5 7", LogCause::BadWord),
    (b"end.", LogCause::BadWord),
    (b"\x00", LogCause::BadWord),
    (b"r", LogCause::WrongCount),
    (b"r 5", LogCause::WrongCount),
    (b"r 5 7 1 1", LogCause::WrongCount),
    (b"r 5 7 1 1 1 1", LogCause::WrongCount),
    (b"r 5 7 @1 1", LogCause::WrongCount),
    (b"r 5 7 @1 @1", LogCause::WrongCount),
    (b"g 5 7", LogCause::WrongCount),
    (b"f 5 6", LogCause::WrongCount),
    (b". 1", LogCause::WrongCount),
    (b"end 1", LogCause::WrongCount),
    (b"@ 3", LogCause::WrongCount),
    (b"hhlog", LogCause::WrongCount),
    (b"r 5 ", LogCause::BadNumber),
    (b"r  5 7", LogCause::BadNumber),
    (b"r 5 7\r", LogCause::BadNumber),
    (b"r 05 7", LogCause::BadNumber),
    (b"r 00 7", LogCause::BadNumber),
    (b"r -5 7", LogCause::BadNumber),
    (b"r 5 1000000000000000000", LogCause::BadNumber),
    (b"r 5 7 @", LogCause::BadNumber),
    (b"r 5 7 @x", LogCause::BadNumber),
    (b"r x", LogCause::BadNumber),
    (b"k 1e3", LogCause::BadNumber),
    (b"r 5 7 0", LogCause::OverLimit),
    (b"r 5 7 1 0 1", LogCause::OverLimit),
    (b"r 5 7 268435457", LogCause::OverLimit),
    (b"r 5 7 16384 16385 16384", LogCause::OverLimit),
    (
        b"r 5 999999999999999999 1 2 999999999999999999",
        LogCause::OverLimit,
    ),
    (
        b"r 5 7 999999999999999999 999999999999999999 1",
        LogCause::OverLimit,
    ),
    (b"+ 4294967296", LogCause::OverLimit),
    (b"s 4294967296 0", LogCause::OverLimit),
    (b"s 0 2147483648", LogCause::OverLimit),
    (b"r 5 7 4 2 3", LogCause::RunsOverlap),
    (b"r 5 7 1 1 0", LogCause::RunsOverlap),
    (b"hhlog 2", LogCause::UnknownVersion),
];

// The access of a line of the table.
fn access_of(
    kind: AccessKind,
    (block, offset, length, runs, apart): Numbers,
    site: Option<u64>,
) -> LogLine {
    let place = LogPlace {
        block,
        offset,
        length,
        runs,
        apart,
    };
    LogLine::Act(Act::Access(Access { kind, place, site }))
}

#[test]
fn accesses_are_read(rt: HostRuntime) {
    for (line, kind, place, site) in ACCESSES {
        assert!(rt; read_line(line) == Ok(access_of(*kind, *place, *site)));
    }
}

#[test]
fn references_are_read(rt: HostRuntime) {
    let reference = Reference {
        block: 5,
        offset: 7,
        target: 0,
        site: Some(3),
    };
    assert!(rt; read_line(b"g 5 7 0 @3") == Ok(LogLine::Act(Act::Yield(reference))));
    assert!(rt; read_line(b"p 5 7 0 @3") == Ok(LogLine::Act(Act::Store(reference))));
}

#[test]
fn lines_are_read(rt: HostRuntime) {
    for (line, said) in LINES {
        assert!(rt; read_line(line) == Ok(*said));
    }
}

#[test]
fn bad_lines_have_their_causes(rt: HostRuntime) {
    for (line, cause) in BAD {
        assert!(rt; read_line(line) == Err(*cause));
    }
}
