// Reports as they are written. The expected texts are those of another checker, on the logs that the rows are from.

use log_form::LogPosition;
use log_json::report_json;
use log_report::{Detail, LineKind, LogReport, Told, ToldRace, ToldUse, in_order, report_text};
use log_sites::{SiteNames, site_names};
use plain_vec::Listed;
use std::alloc::{AllocError, Global};

// What a line does, its site, its file from 0 and its number.
type Row = (LineKind, Option<u64>, usize, usize);

// The block, the first location, the one behind the last, and both lines.
type RaceRow = (u64, u64, u64, Row, Row);

// The text that names sites, the races, stale uses with the lines of releases, work and span.
type Case = (
    &'static [u8],
    &'static [RaceRow],
    &'static [(u64, Row, (usize, usize))],
    (u64, u64),
);

const SQUARES: Case = (
    b"hhlog 1\n@ 9700 squares.c:7\n@ 9802 squares.c:8\nend\n",
    &[(
        1,
        55696,
        55700,
        (LineKind::Write, Some(9700), 0, 6),
        (LineKind::Write, Some(9700), 1, 3),
    )],
    &[],
    (1003, 502),
);

const TABLE: Case = (
    b"hhlog 1\n@ 1 sum.c:12 (table)\n@ 2 sum.c:30\n@ 1 another\nend\n@ 9 behind the last line feed",
    &[
        (
            7,
            2,
            3,
            (LineKind::Read, None, 0, 22),
            (LineKind::Release, None, 0, 10),
        ),
        (
            5,
            6,
            7,
            (LineKind::Write, None, 0, 21),
            (LineKind::Write, Some(2), 0, 8),
        ),
        (
            5,
            7,
            8,
            (LineKind::AtomicRead, Some(2), 0, 20),
            (LineKind::Write, Some(2), 0, 8),
        ),
        (
            1,
            2,
            4,
            (LineKind::Write, Some(1), 0, 17),
            (LineKind::Read, None, 0, 9),
        ),
        (
            5,
            5,
            6,
            (LineKind::AtomicRead, Some(2), 0, 20),
            (LineKind::Write, Some(2), 0, 8),
        ),
        (
            5,
            4,
            5,
            (LineKind::AtomicRead, Some(2), 0, 20),
            (LineKind::Write, Some(2), 0, 8),
        ),
    ],
    &[(7, (LineKind::Read, None, 0, 14), (0, 10))],
    (803, 503),
);

const SMALL: Case = (
    b"hhlog 1\n@ 4 a\"b\nend\n",
    &[(
        3,
        7,
        9,
        (LineKind::AtomicRead, Some(4), 0, 2),
        (LineKind::Release, Some(5), 0, 9),
    )],
    &[(7, (LineKind::Read, None, 0, 14), (0, 10))],
    (0, 0),
);

const TEXTS: &[(&Case, Detail, &str)] = &[
    (
        &SQUARES,
        Detail::Merged,
        "race 1 55696 4: write squares.c:7 line 1:6, write squares.c:7 line 2:3; locations 4\nwork 1003 span 502 parallelism 2.00\nend: races 4 reads 0 uses 0 stale 0\n",
    ),
    (
        &TABLE,
        Detail::Merged,
        "race 1 2 2: write sum.c:12 (table) line 1:17, read line 1:9; locations 2\nrace 5 4 2: atomic read sum.c:30 line 1:20, write sum.c:30 line 1:8; locations 3\nrace 5 6 1: write line 1:21, write sum.c:30 line 1:8; locations 1\nrace 7 2 1: read line 1:22, release line 1:10; locations 1\nstale use 7: read line 1:14, released line 1:10; lines 1\nwork 803 span 503 parallelism 1.60\nend: races 7 reads 0 uses 0 stale 1\n",
    ),
    (
        &TABLE,
        Detail::Locations,
        "race 1 2: write sum.c:12 (table) line 1:17, read line 1:9\nrace 1 3: write sum.c:12 (table) line 1:17, read line 1:9\nrace 5 4: atomic read sum.c:30 line 1:20, write sum.c:30 line 1:8\nrace 5 5: atomic read sum.c:30 line 1:20, write sum.c:30 line 1:8\nrace 5 6: write line 1:21, write sum.c:30 line 1:8\nrace 5 7: atomic read sum.c:30 line 1:20, write sum.c:30 line 1:8\nrace 7 2: read line 1:22, release line 1:10\nstale use 7: read line 1:14, released line 1:10; lines 1\nwork 803 span 503 parallelism 1.60\nend: races 7 reads 0 uses 0 stale 1\n",
    ),
];

// The same as JSON objects, by the names of members in docs/LOGS.md.
const OBJECTS: &[(&Case, Detail, &str)] = &[
    (
        &SQUARES,
        Detail::Merged,
        "{\"races\":[{\"block\":1,\"offset\":55696,\"count\":4,\"first\":{\"kind\":\"write\",\"site\":\"squares.c:7\",\"file\":1,\"line\":6},\"second\":{\"kind\":\"write\",\"site\":\"squares.c:7\",\"file\":2,\"line\":3},\"locations\":4}],\"entangled_reads\":[],\"entangled_uses\":[],\"stale_uses\":[],\"work\":1003,\"span\":502,\"parallelism\":\"2.00\",\"end\":{\"races\":4,\"reads\":0,\"uses\":0,\"stale\":0}}\n",
    ),
    (
        &SMALL,
        Detail::Locations,
        "{\"races\":[{\"block\":3,\"offset\":7,\"first\":{\"kind\":\"atomic read\",\"site\":\"a\\\"b\",\"file\":1,\"line\":2},\"second\":{\"kind\":\"release\",\"site\":\"@5\",\"file\":1,\"line\":9}},\n{\"block\":3,\"offset\":8,\"first\":{\"kind\":\"atomic read\",\"site\":\"a\\\"b\",\"file\":1,\"line\":2},\"second\":{\"kind\":\"release\",\"site\":\"@5\",\"file\":1,\"line\":9}}],\"entangled_reads\":[],\"entangled_uses\":[],\"stale_uses\":[{\"block\":7,\"use\":{\"kind\":\"read\",\"file\":1,\"line\":14},\"released\":{\"file\":1,\"line\":10},\"lines\":1}],\"work\":0,\"span\":0,\"parallelism\":\"1.00\",\"end\":{\"races\":2,\"reads\":0,\"uses\":0,\"stale\":1}}\n",
    ),
];

fn told((kind, site, file, line): Row) -> Told {
    Told {
        kind,
        site,
        at: LogPosition { file, line },
    }
}

fn races_of(alloc: Global, rows: &[RaceRow]) -> Result<Listed<ToldRace>, AllocError> {
    let mut races = Listed::new(alloc);
    for (block, start, end, first, second) in rows {
        races.push(ToldRace {
            block: *block,
            start: *start,
            end: *end,
            first: told(*first),
            second: told(*second),
        })?;
    }
    Ok(in_order(races))
}

fn uses_of(
    alloc: Global,
    rows: &[(u64, Row, (usize, usize))],
) -> Result<Listed<ToldUse>, AllocError> {
    let mut uses = Listed::new(alloc);
    for (block, line, (file, at)) in rows {
        uses.push(ToldUse {
            block: *block,
            line: told(*line),
            other: LogPosition {
                file: *file,
                line: *at,
            },
        })?;
    }
    Ok(uses)
}

fn report_of(alloc: Global, case: &Case) -> Result<LogReport, AllocError> {
    let (_, races, stale, (work, span)) = *case;
    Ok(LogReport {
        races: races_of(alloc, races)?,
        entangled_reads: Listed::new(alloc),
        entangled_uses: Listed::new(alloc),
        stale_uses: uses_of(alloc, stale)?,
        work,
        span,
        heaps: None,
        left_out: None,
    })
}

fn names_of(alloc: Global, case: &Case) -> Result<SiteNames, AllocError> {
    let mut texts = Listed::new(alloc);
    texts.push(Listed::from_vec(case.0.to_vec(alloc)?))?;
    site_names(alloc, texts.as_slice())
}

fn text_of(
    alloc: Global,
    case: &Case,
    detail: Detail,
    is_json: bool,
) -> Result<Vec<u8>, AllocError> {
    let report = report_of(alloc, case)?;
    let names = names_of(alloc, case)?;
    if is_json {
        report_json(alloc, &names, detail, &report)
    } else {
        report_text(alloc, &names, detail, &report)
    }
}

fn is_text(alloc: Global, case: &Case, detail: Detail, is_json: bool, text: &str) -> bool {
    match text_of(alloc, case, detail, is_json) {
        Ok(written) => written.as_slice() == text.as_bytes(),
        Err(AllocError) => false,
    }
}

#[test]
fn reports_are_written(rt: HostRuntime) {
    for (case, detail, text) in TEXTS {
        assert!(rt; is_text(rt.alloc(), case, *detail, false, text));
    }
}

#[test]
fn reports_are_written_as_json(rt: HostRuntime) {
    for (case, detail, text) in OBJECTS {
        assert!(rt; is_text(rt.alloc(), case, *detail, true, text));
    }
}
