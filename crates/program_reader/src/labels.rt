// The labels of a function.

ghost use Rattle.std.specs.Prelude.{◌≡◌, ◌<◌, ◌≤◌, ◌^◌, length, IfOk, OnOk};
ghost use Rattle.text_lines.specs.Lines.{lines_of, words_of, most_bytes};
ghost use Rattle.program_reader.specs.Around.{ends_body, no_labels, labels_onto};

use crate::head::Head;
use crate::names::NameTable;
use crate::operands::read_only_name;
use crate::outline::{note_if, split_line};
use std::alloc::{AllocError, Global};
use text_lines::{behind, line_end};

/// Labels, each with the number of the instructions before it; and the number of all instructions.
#[derive(Drop)]
pub struct Labels<'a> {
    pub entries: NameTable<'a>,
    pub next: u32,
}

// Whether a line of this kind ends the lines of a function.
fn is_end(head: Head) -> bool
    ensures { result ≡ ends_body head }
{
    matches!(head, Head::Begin | Head::End)
}

impl<'a> Labels<'a> {
    ghost use Rattle.program_reader.specs.Around.{label_line};

    /// No labels.
    pub fn new(alloc: Global) -> Labels<'a>
        ensures { result ≡ no_labels }
    {
        Labels {
            entries: NameTable::new(alloc),
            next: 0,
        }
    }

    // Notes a line of this kind, given the words after its first.
    fn add_line(&mut self, head: Head, rest: &'a [u8]) -> Result<(), AllocError>
        requires { self.old.next < 2 ^ 31 }
        ensures { OnOk result (self.new ≡ label_line head (words_of rest.now) self.old) }
    {
        match head {
            Head::Label => note_if(&mut self.entries, read_only_name(rest), self.next),
            Head::Order(_) => {
                self.next += 1;
                Ok(())
            }
            _ => Ok(()),
        }
    }
}

/// The labels of the function whose lines begin here.
pub fn read_labels<'a>(alloc: Global, lines: &'a [u8]) -> Result<Labels<'a>, AllocError>
    requires { length lines.now ≤ most_bytes }
    ensures { IfOk result (λ labels. labels ≡ labels_onto no_labels (lines_of lines.now)) }
{
    let mut labels = Labels::new(alloc);
    let mut rest = lines;
    loop {
        let end = line_end(rest);
        let (head, operands) = split_line(&rest[..end]);
        if is_end(head) {
            return Ok(labels);
        }
        labels.add_line(head, operands)?;
        if end == rest.len() {
            return Ok(labels);
        }
        rest = behind(rest, end);
    }
}
