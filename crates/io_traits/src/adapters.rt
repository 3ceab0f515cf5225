// The trusted edge: standard input and output as a source and a sink. Nothing is known of their contents, only of their
// faults.

ghost use Rattle.std.specs.Prelude.{◌≡◌, None};

use crate::fault::{Failed, one_more};
use crate::sink::Sink;
use crate::source::Source;
use std::fs;
use std::io::{Read, Write};
use std::rt::Files;

/// A reader, such as standard input, or the file that was opened last, as a source.
#[derive(Drop)]
pub struct FileSource<'r, F: Files, R> {
    files: &'r F,
    reader: R,
    file: Option<F::File>,
    faults: u64,
}

/// A writer, such as standard output, as a sink. A writer that accepts none of the bytes has failed.
#[derive(Drop)]
pub struct OutSink<W> {
    writer: W,
    faults: u64,
}

impl<'r, F: Files, R> FileSource<'r, F, R> {
    /// A source of the reader's bytes that opens files among these.
    pub fn new(files: &'r F, reader: R) -> FileSource<'r, F, R>
        ensures { (result.faults ≡ 0) × (result.file ≡ None) × (result.reader ≡ reader) }
    {
        FileSource {
            files,
            reader,
            file: None,
            faults: 0,
        }
    }
}

impl<'r, F: Files, R: Read> Source for FileSource<'r, F, R> {
    ghost use Rattle.std.specs.Prelude.{None};

    ghost left = { λ _. None };

    ghost named = { λ _ _. None };

    ghost faults = { λ s. s.faults };

    fn find(&mut self, name: &str) -> Result<(), Failed> {
        match fs::open(self.files, name) {
            Ok(file) => {
                self.file = Some(file);
                Ok(())
            }
            Err(_) => {
                self.faults = one_more(self.faults);
                Err(Failed)
            }
        }
    }

    fn take(&mut self, buf: &mut [u8]) -> Result<usize, Failed> {
        let read = match &mut self.file {
            Some(file) => file.read(buf),
            None => self.reader.read(buf),
        };
        match read {
            Ok(count) => Ok(count),
            Err(_) => {
                self.faults = one_more(self.faults);
                Err(Failed)
            }
        }
    }
}

impl<W> OutSink<W> {
    pub fn new(writer: W) -> OutSink<W>
        ensures { result ≡ record { writer = writer; faults = 0 } }
    {
        OutSink { writer, faults: 0 }
    }
}

impl<W: Write> Sink for OutSink<W> {
    ghost use Rattle.std.specs.Prelude.{None};

    ghost written = { λ _. None };

    ghost faults = { λ s. s.faults };

    fn put(&mut self, bytes: &[u8]) -> Result<usize, Failed> {
        match self.writer.write(bytes) {
            Ok(count) if count > 0 => Ok(count),
            _ => {
                self.faults = one_more(self.faults);
                Err(Failed)
            }
        }
    }
}
