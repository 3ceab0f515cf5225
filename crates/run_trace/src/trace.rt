// Trace texts.

ghost use Rattle.std.specs.Prelude.{◌≡◌, ◌≤◌, ◌+◌, length, IfOk, IfErr, None};
ghost use Rattle.run_trace.specs.Line.{trace_line};
ghost use Rattle.run_trace.specs.Trace.{version_by, version_of_words, version_of, first_bad, entries_in, trace_fault, IsTraceText, NotesLine, trace_text as text_of};
ghost use Rattle.text_lines.specs.Lines.{lines_of, words_of, most_bytes};
ghost use Rattle.or_no_memory.specs.Refusals.{Reports};

use crate::entry::Entry;
use crate::line::{TraceLine, add_entry, read_line};
use crate::settings::Version;
use hh_lang::Listed;
use or_no_memory::OrNoMemory;
use std::alloc::{AllocError, Global};
use text_lines::{next_line, next_word};

/// The entries of a trace text, and its version.
pub struct Trace {
    pub version: Version,
    pub entries: Listed<Entry>,
}

impl Drop for Trace {
    fn drop(self) {
        let Trace {
            version: _,
            entries: _,
        } = self;
    }
}

// The version that a word names.
fn version_named(word: &[u8]) -> Option<Version>
    ensures { result ≡ version_by word.now }
{
    if word == b"1".as_slice() {
        Some(Version::One)
    } else if word == b"2".as_slice() {
        Some(Version::Two)
    } else {
        None
    }
}

// The version that the words of a line name.
fn version_in_words(line: &[u8]) -> Option<Version>
    ensures { result ≡ version_of_words (words_of line.now) }
{
    let (word, rest) = next_word(line)?;
    let (version, rest) = next_word(rest)?;
    match next_word(rest) {
        None if word == b"trace".as_slice() => version_named(version),
        _ => None,
    }
}

/// The version in the first line of a trace text; None if it isn't such a line.
pub fn read_version(line: &[u8]) -> Option<Version>
    ensures { result ≡ version_of line.now }
{
    match str::from_utf8(line) {
        Ok(_) => version_in_words(line),
        Err(_) => None,
    }
}

// Appends the entry of a line, if it has one; false if the line is malformed.
fn note(entries: &mut Listed<Entry>, line: &[u8]) -> Result<bool, AllocError>
    ensures { IfOk result (NotesLine entries.old entries.new (trace_line line.now)) }
{
    match read_line(line) {
        TraceLine::Nothing => Ok(true),
        TraceLine::Says(entry) => {
            entries.push(entry)?;
            Ok(true)
        }
        TraceLine::Wrong => Ok(false),
    }
}

/// Reads a trace text that begins on the line `first_line` of the whole input. The first line is `trace 1` or `trace
/// 2`; each further line is an entry, or has no words. It is refused with the number of its first malformed line.
pub fn read_trace(alloc: Global, text: &[u8], first_line: u32) -> Result<Trace, OrNoMemory<u32>>
    requires sized { length text.now ≤ most_bytes }
    requires numbered { first_line ≤ most_bytes + 1 }
    ensures read { IfOk result (IsTraceText first_line text.now) }
    ensures bad { IfErr result (Reports (trace_fault first_line text.now)) }
{
    let (line, lines) = next_line(text);
    let Some(version) = read_version(line) else {
        return Err(OrNoMemory::Refused(first_line));
    };
    let entries = match lines {
        None => Listed::new(alloc),
        Some(rest) => read_entries(alloc, rest, first_line + 1)?,
    };
    Ok(Trace { version, entries })
}

// The entries of lines, the first of which has this number.
fn read_entries(
    alloc: Global,
    text: &[u8],
    first_line: u32,
) -> Result<Listed<Entry>, OrNoMemory<u32>>
    requires { first_line + length text.now ≤ 33554434 }
    ensures read { IfOk result (λ entries. (first_bad first_line (lines_of text.now) ≡ None) × (entries ≡ entries_in (lines_of text.now))) }
    ensures bad { IfErr result (Reports (first_bad first_line (lines_of text.now))) }
{
    let mut entries = Listed::new(alloc);
    let mut rest = text;
    let mut number = first_line;
    loop {
        let (line, lines) = next_line(rest);
        if !note(&mut entries, line)? {
            return Err(OrNoMemory::Refused(number));
        }
        match lines {
            None => return Ok(entries),
            Some(more) => rest = more,
        }
        number += 1;
    }
}

/// The trace text of a journal.
pub fn trace_text(alloc: Global, version: Version, journal: &[Entry]) -> Result<Vec<u8>, AllocError>
    ensures { IfOk result (λ text. text.items ≡ text_of version journal.now) }
{
    let mut text = Vec::new(alloc);
    text.extend_from_slice(format!(in alloc; "trace {}\n", version.number())?.as_bytes())?;
    for entry in journal {
        add_entry(alloc, &mut text, *entry)?;
    }
    Ok(text)
}
