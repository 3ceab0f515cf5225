// Sources and sinks: over readers and writers, in memory, and those that never fail.

use io_traits::{
    Failed, FileSource, MemSink, MemSource, OutSink, Sink, Source, SureSink, SureSource,
};
use std::alloc::{AllocError, Global};
use std::io;
use std::io::{ErrorKind, Read, Write};

// A reader and a writer that fail in every second call, and take one byte in the others.
#[derive(Drop)]
struct Flaky {
    fails: bool,
}

impl Read for Flaky {
    fn read(&mut self, buf: &mut [u8]) -> io::Result<usize> {
        self.fails = !self.fails;
        if self.fails || buf.is_empty() {
            return Err(io::Error::from(ErrorKind::BrokenPipe));
        }
        buf[0] = 7;
        Ok(1)
    }
}

impl Write for Flaky {
    fn write(&mut self, buf: &[u8]) -> io::Result<usize> {
        self.fails = !self.fails;
        Ok(if self.fails || buf.is_empty() { 0 } else { 1 })
    }

    fn flush(&mut self) -> io::Result<()> {
        Ok(())
    }
}

#[test]
fn a_reader_is_a_source(rt: HostRuntime) {
    let mut source = FileSource::new(&rt, Flaky { fails: false });
    let mut buf = [0u8; 4];
    let taken = (source.take(&mut buf), source.take(&mut buf), buf[0]);
    let found = source.find("no file has this name");
    assert!(rt; (taken, found) == ((Err(Failed), Ok(1), 7), Err(Failed)));
}

#[test]
fn a_writer_is_a_sink(rt: HostRuntime) {
    let mut sink = OutSink::new(Flaky { fails: false });
    let answers = (sink.put(b"ab"), sink.put(b"ab"));
    assert!(rt; answers == (Err(Failed), Ok(1)));
}

// The answer of a sink that writes to these bytes.
fn put_into(bytes: &mut Vec<u8>) -> Result<usize, Failed> {
    let mut sink = OutSink::new(bytes);
    sink.put(b"ab")
}

#[test]
fn a_writer_gets_the_bytes(rt: HostRuntime) {
    let mut bytes = Vec::new(rt.alloc());
    let answer = put_into(&mut bytes);
    assert!(rt; answer == Ok(2) && bytes.as_slice() == b"ab".as_slice());
}

fn sure_source(alloc: Global) -> Result<SureSource, AllocError> {
    let bytes = b"hello".to_vec(alloc)?;
    let named = b"file".to_vec(alloc)?;
    Ok(SureSource::new(bytes, named))
}

// Whether a source returns its bytes, and those of a name that exists.
fn is_sure(source: &mut SureSource) -> bool {
    let mut buf = [0u8; 3];
    source.take(&mut buf) == Ok(3)
        && &buf == b"hel"
        && source.left() == b"lo".as_slice()
        && source.find("a") == Ok(())
        && source.left() == b"file".as_slice()
}

#[test]
fn sure_ends_never_fail(rt: HostRuntime) {
    let given = match sure_source(rt.alloc()) {
        Ok(mut source) => is_sure(&mut source),
        Err(_) => false,
    };
    assert!(rt; given);
    assert!(rt; SureSink.put(b"ab") == Ok(2));
}

// A source that returns at most four bytes a call, and fails in the second and the fifth call.
fn failing_source(alloc: Global) -> Result<MemSource, AllocError> {
    let bytes = b"hello".to_vec(alloc)?;
    let named = b"file".to_vec(alloc)?;
    let failing = [2, 5].to_vec(alloc)?;
    Ok(MemSource::new(bytes, named, 4, failing))
}

// Whether a source returns exactly these bytes, or fails.
fn gives(source: &mut MemSource, expected: Result<&[u8], Failed>) -> bool {
    let mut buf = [0u8; 8];
    match source.take(&mut buf) {
        Ok(count) => expected == Ok(&buf[..count]),
        Err(failed) => expected == Err(failed),
    }
}

// Whether a source returns its first bytes in three calls, of which the second fails, and then has no more.
fn gives_bytes(source: &mut MemSource) -> bool {
    gives(source, Ok(b"hell"))
        && gives(source, Err(Failed))
        && source.left() == b"o".as_slice()
        && gives(source, Ok(b"o"))
        && gives(source, Ok(b""))
}

// Whether a source finds a name in two calls, of which the first fails and changes nothing, and returns its bytes.
fn gives_named(source: &mut MemSource) -> bool {
    source.find("a") == Err(Failed)
        && source.left() == b"".as_slice()
        && source.find("a") == Ok(())
        && gives(source, Ok(b"file"))
}

#[test]
fn a_source_gives_its_bytes_and_fails_where_told(rt: HostRuntime) {
    let given = match failing_source(rt.alloc()) {
        Ok(mut source) => (gives_bytes(&mut source), gives_named(&mut source)),
        Err(_) => (false, false),
    };
    assert!(rt; given == (true, true));
}

// A sink that takes at most three bytes a call, and fails in the second call.
fn failing_sink(alloc: Global) -> Result<MemSink, AllocError> {
    let failing = [2].to_vec(alloc)?;
    Ok(MemSink::new(alloc, 3, failing))
}

// Whether a sink takes a text in three calls, of which the second fails.
fn takes_text(sink: &mut MemSink) -> bool {
    sink.put(b"hello") == Ok(3)
        && sink.put(b"lo") == Err(Failed)
        && sink.put(b"lo") == Ok(2)
        && sink.written() == b"hello".as_slice()
}

#[test]
fn a_sink_keeps_what_it_took(rt: HostRuntime) {
    let taken = match failing_sink(rt.alloc()) {
        Ok(mut sink) => takes_text(&mut sink),
        Err(_) => false,
    };
    assert!(rt; taken);
}
