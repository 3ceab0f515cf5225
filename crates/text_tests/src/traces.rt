// Traces, settings, and inputs of a program and a trace.

use heap_image::{Entry, Kind, MOST_BYTES, Settings, Trace, Version, read_trace, trace_text};
use program_reader::Cause;
use std::alloc::Global;
use trace_input::{InputFault, OrNoMemory, read_trace_input};

const TEXT: &[u8] =
    b"trace 2 # versions\n\n0 took 0\r\n\t63 ran 007 257 #no word\n0 chunk 1\n0 begin 1\n0 end 1 2 3 4\n0 putoff 1\n1 mark 0 # #\n1 some 0 1024\n1 sweep 0 5\n0 fuel";

// The same trace in version 1.
const WRITTEN: &[u8] =
    b"trace 1\n0 took 0\n63 ran 7 257\n0 chunk 1\n0 begin 1\n0 end 1 2 3 4\n0 putoff 1\n1 mark 0\n1 some 0 1024\n1 sweep 0 5\n0 fuel\n";

// Whether a trace is the one in TEXT.
fn is_read(trace: &Trace) -> bool {
    let read = trace.entries.as_slice();
    trace.version == Version::Two
        && read.len() == 10
        && read.get(1) == Some(&Entry::new(63, Kind::Ran(7, 257)))
        && read.get(4) == Some(&Entry::new(0, Kind::End(1, 2, 3, 4)))
        && read.get(8) == Some(&Entry::new(1, Kind::Sweep(0, 5)))
}

fn is_written(alloc: Global, trace: &Trace) -> bool {
    match trace_text(alloc, Version::One, trace.entries.as_slice()) {
        Ok(written) => written.as_slice() == WRITTEN,
        Err(_) => false,
    }
}

#[test]
fn a_trace_is_read_and_written(rt: HostRuntime) {
    let alloc = rt.alloc();
    let told = match read_trace(alloc, TEXT, 7) {
        Ok(trace) => (is_read(&trace), is_written(alloc, &trace)),
        Err(_) => (false, false),
    };
    assert!(rt; told == (true, true));
}

// A text that begins on line 6, and its first bad line.
const BAD: &[(&[u8], u32)] = &[
    (b"trace 9\n64 took 0", 6),
    (b"trace 01", 6),
    (b"trace", 6),
    (b"trace 1 1", 6),
    (b"trace 1 # \xff", 6),
    (b"", 6),
    (b"trace 1\n64 took 0", 7),
    (b"trace 1\n0 ran 0 258", 7),
    (b"trace 1\n0 ran 0 0", 7),
    (b"trace 1\n0 some 0 0", 7),
    (b"trace 1\n0 some 0 1025", 7),
    (b"trace 1\n0 took 4294967296", 7),
    (b"trace 1\n0 sweep 0", 7),
    (b"trace 1\n0 ran 0", 7),
    (b"trace 1\n0 took +1", 7),
    (b"trace 1\n0 took 0\n0 end 0 1 2\nx", 8),
    (b"trace 1\n\n#\n0 fuel 0", 9),
    (b"trace 1\n0", 7),
    (b"trace 1\n0 end 0 1 2 3 4", 7),
    (b"trace 1\n0 fuel # \xff", 7),
];

// The first bad line of a text that begins on line 6; 0 if it has none.
fn bad_line(alloc: Global, text: &[u8]) -> u32 {
    if text.len() > MOST_BYTES {
        return 0;
    }
    match read_trace(alloc, text, 6) {
        Err(OrNoMemory::Refused(told)) => told,
        _ => 0,
    }
}

#[test]
fn the_first_bad_line_is_told(rt: HostRuntime) {
    for (text, line) in BAD {
        assert!(rt; bad_line(rt.alloc(), text) == *line, "{:?}", text);
    }
}

// The contents of settings.
fn limits(settings: Settings) -> [u64; 6] {
    [
        u64::from(settings.workers()),
        settings.fuel(),
        u64::from(settings.chunks()),
        u64::from(settings.leaf()),
        u64::from(settings.inner()),
        u64::from(settings.version().field_limit()),
    ]
}

#[test]
fn settings_of_versions(rt: HostRuntime) {
    let least = Settings::new(Version::One, 1, 1, 2, 16, 16);
    assert!(rt; limits(least) == [1, 1, 2, 16, 16, 1022]);
    let usual = Settings::usual();
    assert!(rt; usual.version().field_limit() == 1000000);
    assert!(rt; usual == Settings::new(Version::Two, 1, 1000000, 4096, 4096, 8192));
    assert!(rt; usual.with_version(Version::One) != usual);
}

// The numbers of functions and entries of an input; or the line of its first fault, and the fault's cause if it is in
// the program.
type Told = Result<(usize, usize), (u32, Option<Cause>)>;

fn told(alloc: Global, input: &[u8]) -> Told {
    if input.len() > MOST_BYTES {
        return Err((0, None));
    }
    match read_trace_input(alloc, input) {
        Ok(read) => Ok((read.program.functions().len(), read.trace.entries.len())),
        Err(OrNoMemory::Refused(InputFault::Source(refused))) => {
            Err((refused.line, Some(refused.cause)))
        }
        Err(OrNoMemory::Refused(InputFault::BadLine(line))) => Err((line, None)),
        Err(OrNoMemory::NoMemory) => Err((0, None)),
    }
}

const INPUTS: &[(&[u8], Told)] = &[
    (b"fn main\nend\ntrace 1\n0 took 0\n\n0 ran 0 1", Ok((1, 2))),
    (b"fn main\nend\n  trace 2 # the trace", Ok((1, 0))),
    (
        b"fn trace\nend\nfn main\nend\n#trace\ntrace 1\n0 fuel\n",
        Ok((2, 1)),
    ),
    (b"fn f\nend\nfn main\npfor f\nend\ntrace 2", Ok((5, 0))),
    (b"fn main\nend", Err((2, None))),
    (b"fn main\nend\n", Err((3, None))),
    (b"", Err((1, Some(Cause::NoMain)))),
    (b"trace 1", Err((1, Some(Cause::NoMain)))),
    (b"fn main\ntrace 1\nend", Err((2, Some(Cause::NoEnd)))),
    (b"fn main\nend\nx\ntrace 9", Err((3, Some(Cause::Word)))),
    (b"fn main\nend\ntrace 9\nx", Err((3, None))),
    (b"fn main\nend\ntrace 1\n0 took 0\ntrace 1", Err((5, None))),
    // Newer programs have no trace of version 1.
    (b"fn main\nfreeze r0\nend\ntrace 1\nx", Err((4, None))),
    (b"fn main\nfreeze r0\nend\ntrace 2\nx", Err((5, None))),
    (b"fn main\ncas i0 r0 i0 r0 r0\nend\ntrace 1", Err((4, None))),
    (b"fn f\nend\nfn main\npfor f\nend\ntrace 1", Err((6, None))),
];

#[test]
fn programs_end_where_traces_begin(rt: HostRuntime) {
    for (input, expected) in INPUTS {
        assert!(rt; told(rt.alloc(), input) == *expected, "{:?}", input);
    }
}
