// The names of the functions and of the loops of a text.

ghost use Rattle.std.specs.Prelude.{◌≡◌, ◌≤◌, length, OnOk, option_copied};
ghost use Rattle.text_lines.specs.Lines.{words_of, most_bytes};
ghost use Rattle.program_reader.specs.Head.{head_of_words, operands_of};
ghost use Rattle.program_reader.specs.Sense.{OutlineIsSmall};
ghost use Rattle.program_reader.specs.Around.{begun_name, looped_name, no_names, noted_if, outline_line, outline_of};

use crate::head::{Head, Verb, head_of};
use crate::names::NameTable;
use crate::operands::read_only_name;
use crate::sense::Outline;
use std::alloc::{AllocError, Global};
use text_lines::{behind, line_end, next_word};

/// What kind of line a line is, and what follows its first word.
pub(crate) fn split_line(line: &[u8]) -> (Head, &[u8])
    ensures head { result.0 ≡ head_of_words (words_of line.now) }
    ensures operands { words_of result.1.now ≡ operands_of (words_of line.now) }
{
    match next_word(line) {
        None => (Head::Blank, &line[line.len()..]),
        Some((word, rest)) => (head_of(word), rest),
    }
}

/// Notes a name, if there is one.
pub fn note_if<'a>(
    table: &mut NameTable<'a>,
    name: Option<&'a [u8]>,
    number: u32,
) -> Result<(), AllocError>
    ensures { OnOk result (table.new ≡ noted_if table.old (option_copied name.entry) number) }
{
    match name {
        None => Ok(()),
        Some(name) => table.note(name, number),
    }
}

// The name of the function that a line begins.
fn read_begun(head: Head, rest: &[u8]) -> Option<&[u8]>
    ensures { option_copied result ≡ begun_name head (words_of rest.now) }
{
    match head {
        Head::Begin => read_only_name(rest),
        _ => None,
    }
}

// The name of the function that a line loops over.
fn read_looped(head: Head, rest: &[u8]) -> Option<&[u8]>
    ensures { option_copied result ≡ looped_name head (words_of rest.now) }
{
    match head {
        Head::Order(Verb::Pfor) => read_only_name(rest),
        _ => None,
    }
}

impl<'a> Outline<'a> {
    /// No names.
    pub fn new(alloc: Global) -> Outline<'a>
        ensures { result ≡ no_names }
    {
        Outline {
            functions: NameTable::new(alloc),
            loops: NameTable::new(alloc),
        }
    }

    // Notes what a line names.
    fn add_line(&mut self, line: &'a [u8], number: u32) -> Result<(), AllocError>
        ensures { OnOk result (self.new ≡ outline_line number self.old line.now) }
    {
        let (head, rest) = split_line(line);
        note_if(&mut self.functions, read_begun(head, rest), number)?;
        note_if(&mut self.loops, read_looped(head, rest), number)
    }

    /// Notes what the lines of a text name.
    pub fn add_lines(&mut self, text: &'a [u8]) -> Result<(), AllocError>
        requires sized { length text.now ≤ most_bytes }
        requires nothing { self.old ≡ no_names }
        ensures value { OnOk result (self.new ≡ outline_of text.now) }
        ensures small { OnOk result (OutlineIsSmall self.new) }
    {
        let mut rest = text;
        let mut number: u32 = 1;
        loop {
            let end = line_end(rest);
            self.add_line(&rest[..end], number)?;
            if end == rest.len() {
                return Ok(());
            }
            rest = behind(rest, end);
            number += 1;
        }
    }
}
