// Calls of the program, and what they write.

use io_traits::{MemSink, MemSource};
use log_command::check;
use std::alloc::{AllocError, Global};

const USAGE: &str = "usage: hhlog check FILE.. [--all] [--json] [--heaps] [--blocks N ..]\n";

const WORDS: &str = "end: words refused\n";

const SOUND: &[u8] = b"hhlog 1\ns 0 0\n.\nend\n";

const QUIET: &str = "work 0 span 0 parallelism 1.00\nend: races 0 reads 0 uses 0 stale 0\n";

const QUIET_JSON: &str =
    "{\"races\":[],\"entangled_reads\":[],\"entangled_uses\":[],\"stale_uses\":[],\"work\":0,\"span\":0,\"parallelism\":\"1.00\",\"end\":{\"races\":0,\"reads\":0,\"uses\":0,\"stale\":0}}\n";

// A root and its child write one location.
const RACING: &[u8] =
    b"hhlog 1\ns 0 0\n+ 1\nw 1 0\n- 1\n.\ns 1 0\nw 1 0 2 @3\nw 1 5 2\n.\n@ 3 x\nend\n";

// A root releases a block while its child reads it, and reads it once more.
const RELEASED: &[u8] =
    b"hhlog 1\ns 0 0\na 4 8\n+ 1\nf 4\n- 1\nr 4 2\n.\ns 1 0\nr 4 0 4 @3\n.\nend\n";

// What is written where nothing fails.
const REPLIES: &[(&str, &[u8], u8, &str, &str)] = &[
    ("--help", b"", 0, USAGE, ""),
    ("", b"", 2, "", WORDS),
    ("check", b"", 2, "", WORDS),
    ("check --all", b"", 2, "", WORDS),
    ("check --all a --alls", b"", 2, "", WORDS),
    ("check a --all b", b"", 2, "", WORDS),
    ("check --all a --all", b"", 2, "", WORDS),
    ("check a --json --json", b"", 2, "", WORDS),
    ("check a --blocks 1 --blocks 2", b"", 2, "", WORDS),
    ("check --blocks a", b"", 2, "", WORDS),
    ("check a --blocks", b"", 2, "", WORDS),
    ("check a --blocks --all", b"", 2, "", WORDS),
    ("check a --blocks 1 b", b"", 2, "", WORDS),
    ("check a --blocks 01", b"", 2, "", WORDS),
    ("check a --blocks 1000000000000000000", b"", 2, "", WORDS),
    ("verify a", b"", 2, "", WORDS),
    ("--help a", b"", 2, "", WORDS),
    ("check a", SOUND, 0, QUIET, ""),
    ("check --all a", SOUND, 0, QUIET, ""),
    (
        "check --all a --json --blocks 1 2",
        SOUND,
        0,
        QUIET_JSON,
        "",
    ),
    (
        "check a",
        b"hhlog 1\ns 0 0\n.\nend\n\x00\x00\nx",
        0,
        QUIET,
        "",
    ),
    (
        "check a",
        RACING,
        12,
        "race 1 0 1: write x line 1:8, write line 1:4; locations 1\nwork 0 span 0 parallelism 1.00\nend: races 1 reads 0 uses 0 stale 0\n",
        "",
    ),
    (
        "check --all a",
        RACING,
        12,
        "race 1 0: write x line 1:8, write line 1:4\nwork 0 span 0 parallelism 1.00\nend: races 1 reads 0 uses 0 stale 0\n",
        "",
    ),
    (
        "check a --all",
        RACING,
        12,
        "race 1 0: write x line 1:8, write line 1:4\nwork 0 span 0 parallelism 1.00\nend: races 1 reads 0 uses 0 stale 0\n",
        "",
    ),
    (
        "check a --blocks 7 1 --all",
        RACING,
        12,
        "race 1 0: write x line 1:8, write line 1:4\nwork 0 span 0 parallelism 1.00\nend: races 1 reads 0 uses 0 stale 0\n",
        "",
    ),
    ("check a --blocks 2", RACING, 0, QUIET, ""),
    (
        "check a --json",
        RACING,
        12,
        "{\"races\":[{\"block\":1,\"offset\":0,\"count\":1,\"first\":{\"kind\":\"write\",\"site\":\"x\",\"file\":1,\"line\":8},\"second\":{\"kind\":\"write\",\"file\":1,\"line\":4},\"locations\":1}],\"entangled_reads\":[],\"entangled_uses\":[],\"stale_uses\":[],\"work\":0,\"span\":0,\"parallelism\":\"1.00\",\"end\":{\"races\":1,\"reads\":0,\"uses\":0,\"stale\":0}}\n",
        "",
    ),
    (
        "check a --json",
        b"hhlog 1\ns 0 0\n.\n",
        14,
        "{\"races\":[],\"entangled_reads\":[],\"entangled_uses\":[],\"stale_uses\":[],\"work\":0,\"span\":0,\"parallelism\":\"1.00\",\"end\":{\"races\":0,\"reads\":0,\"uses\":0,\"stale\":0,\"cut\":0}}\n",
        "",
    ),
    (
        "check a --json",
        b"hhlog 1\nr 1\n",
        11,
        "",
        "end: log refused a line 2: wrong count of words\n",
    ),
    (
        "check a",
        RELEASED,
        12,
        "race 4 0 4: read @3 line 1:10, release line 1:5; locations 4\nstale use 4: read line 1:7, released line 1:5; lines 1\nwork 0 span 0 parallelism 1.00\nend: races 4 reads 0 uses 0 stale 1\n",
        "",
    ),
    (
        "check a",
        b"hhlog 1\ns 0 0\n.\n",
        14,
        "work 0 span 0 parallelism 1.00\nend: races 0 reads 0 uses 0 stale 0 cut 0\n",
        "",
    ),
    (
        "check a",
        b"hhlog 1\ns 0 0\n+ 1\nk 7\ns 3 4\nr 1 2\n",
        14,
        "work 7 span 7 parallelism 1.00\nend: races 0 reads 0 uses 0 stale 0 cut 1\n",
        "",
    ),
    (
        "check a",
        b"\x00\x00\x00\x00",
        11,
        "",
        "end: log refused a line 1: no version\n",
    ),
    (
        "check a b",
        SOUND,
        11,
        "",
        "end: log refused b line 3: strand has ended\n",
    ),
    (
        "check a",
        b"hhlog 1\nr 1\n",
        11,
        "",
        "end: log refused a line 2: wrong count of words\n",
    ),
    (
        "check a",
        b"hhlog 1\ns 0 0\n- 1\n.\nend\n",
        11,
        "",
        "end: log refused a line 3: task 0 joins no open child of its own\n",
    ),
    (
        "check a",
        b"hhlog 1\ns 0 0\nk 1\nend\n",
        11,
        "",
        "end: log refused a line 3: task 0 has no end\n",
    ),
    (
        "check a",
        b"hhlog 1\nend\n",
        11,
        "",
        "end: log refused: task 0 has no end\n",
    ),
    (
        "check a",
        b"hhlog 1\ns 0 0\n+ 1\n.\ns 1 0\n.\nend\n",
        11,
        "",
        "end: log refused a line 4: task 0 leaves children unjoined\n",
    ),
    (
        "check a",
        b"hhlog 1\ns 0 0\n.\ns 5 0\n.\nend\n",
        11,
        "",
        "end: log refused a line 5: task 5 is spawned by no task that the root leads to\n",
    ),
    (
        "check a",
        b"hhlog 1\ns 0 0\n.\ns 0 2\nk 1\nend\n",
        11,
        "",
        "end: log refused a line 3: task 0 goes on after its end\n",
    ),
];

// The calls of the source and of standard output that fail, and the exit status.
const FAILING: &[(&str, &[u64], &[u64], u8)] = &[
    ("check a", &[1], &[], 8),
    ("check a", &[2], &[], 8),
    ("check a b", &[4], &[], 8),
    ("check a", &[], &[1], 9),
];

// Adds a word that isn't empty, and says whether there was memory for it.
fn add_word(alloc: Global, words: &mut Vec<String>, word: &str) -> bool {
    if word.is_empty() {
        return true;
    }
    match String::from_str(alloc, word) {
        Ok(word) => words.push(word).is_ok(),
        Err(_) => false,
    }
}

// The words of a line.
fn words_of(alloc: Global, line: &str) -> Option<Vec<String>> {
    let mut words = Vec::new(alloc);
    for word in line.split(' ') {
        if !add_word(alloc, &mut words, word) {
            return None;
        }
    }
    Some(words)
}

// A source in which each file has these bytes, and which fails at these calls.
fn source_of(alloc: Global, bytes: &[u8], failing: &[u64]) -> Result<MemSource, AllocError> {
    let named = bytes.to_vec(alloc)?;
    Ok(MemSource::new(Vec::new(alloc), named, 100, failing.to_vec(alloc)?))
}

// A sink that fails at these calls.
fn sink_of(alloc: Global, failing: &[u64]) -> Option<MemSink> {
    match failing.to_vec(alloc) {
        Ok(failing) => Some(MemSink::new(alloc, 1000, failing)),
        Err(AllocError) => None,
    }
}

// The exit status of a call over a source and sinks.
fn status_of(
    alloc: Global,
    line: &str,
    source: &mut MemSource,
    out: &mut MemSink,
    error: &mut MemSink,
) -> Option<u8> {
    match words_of(alloc, line) {
        Some(words) => Some(check(alloc, &words, source, out, error).code()),
        None => None,
    }
}

// Whether a call over a source and sinks has this exit status, and writes just this.
fn writes(
    alloc: Global,
    line: &str,
    source: &mut MemSource,
    out: &mut MemSink,
    (status, to_out, to_error): (u8, &[u8], &[u8]),
) -> bool {
    match sink_of(alloc, &[]) {
        None => false,
        Some(mut error) => {
            let code = status_of(alloc, line, source, out, &mut error);
            code == Some(status) && out.written() == to_out && error.written() == to_error
        }
    }
}

// Whether a call of which these calls fail is answered so.
pub(crate) fn answers(
    alloc: Global,
    line: &str,
    bytes: &[u8],
    (reads, failing): (&[u64], &[u64]),
    (status, out, error): (u8, &str, &str),
) -> bool {
    match (source_of(alloc, bytes, reads), sink_of(alloc, failing)) {
        (Ok(mut source), Some(mut sink)) => {
            writes(
                alloc,
                line,
                &mut source,
                &mut sink,
                (status, out.as_bytes(), error.as_bytes()),
            )
        }
        _ => false,
    }
}

#[test]
fn calls_are_answered(rt: HostRuntime) {
    for (line, bytes, status, out, error) in REPLIES {
        assert!(rt; answers(rt.alloc(), line, bytes, (&[], &[]), (*status, out, error)));
    }
}

#[test]
fn faults_are_told(rt: HostRuntime) {
    for (line, reads, writes, status) in FAILING {
        assert!(rt; answers(rt.alloc(), line, SOUND, (reads, writes), (*status, "", "")));
    }
}
