// A line as it is parsed.

ghost use Rattle.std.specs.Prelude.{◌≡◌, ◌≤◌, ◌+◌, [], length, option_map};
ghost use Rattle.text_faults.specs.Placed.{placed_of};
ghost use Rattle.text_faults.specs.Lines.{first_placed_word};
ghost use Rattle.text_faults.specs.Parsed.{IsParse};

use crate::fault::Operand;
use crate::form::line_form;
use crate::placed::{Placed, next_placed};
use program_reader::{Head, head_of, is_name_word};

/// What kind of line a line is, its first word, the operands that it is to have, and where those that it has begin.
#[derive(Clone, Copy)]
pub(crate) struct Parsed<'a> {
    pub line: &'a [u8],
    pub head: Head,
    pub first: Placed<'a>,
    pub form: &'static [Operand],
    pub rest: usize,
}

// A line without words.
fn parse_empty(line: &[u8]) -> Parsed<'_>
    ensures line { result.line.now ≡ line.now }
    ensures head { result.head ≡ Head.Blank }
    ensures first { placed_of result.first ≡ first_placed_word [] }
    ensures form { result.form.now ≡ [] }
    ensures rest { result.rest ≡ length line.now }
{
    Parsed {
        line,
        head: Head::Blank,
        first: Placed {
            column: 1,
            word: b"",
        },
        form: &[],
        rest: line.len(),
    }
}

/// Parses a line.
pub(crate) fn parse(line: &[u8]) -> Parsed<'_>
    ensures line { result.line.now ≡ line.now }
    ensures parsed { IsParse result }
{
    let Some((first, rest)) = next_placed(line, 0) else {
        return parse_empty(line);
    };
    let head = head_of(first.word);
    Parsed {
        line,
        head,
        first,
        form: line_form(head),
        rest,
    }
}

impl<'a> Parsed<'a> {
    ghost use Rattle.std.specs.Prelude.{◌≡◌, ◌≤◌, length, option_map};
    ghost use Rattle.text_faults.specs.Placed.{placed_from};
    ghost use Rattle.text_faults.specs.Lines.{lone_name};

    /// The name after the first word, if it stands alone.
    pub(crate) fn lone_name(&self) -> Option<&'a [u8]>
        requires { self.now.rest ≤ length self.now.line.now }
        ensures { option_map (λ n. n.now) result ≡ lone_name (placed_from self.now.line.now self.now.rest) }
    {
        let (name, rest) = next_placed(self.line, self.rest)?;
        if is_name_word(name.word) && next_placed(self.line, rest).is_none() {
            Some(name.word)
        } else {
            None
        }
    }
}
