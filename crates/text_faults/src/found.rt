// A word that is wrong, and the first of a line's operands that is.

ghost use Rattle.std.specs.Prelude.{◌≡◌, ◌≤◌, ◌+◌, [], ℕ, length, option_map};
ghost use Rattle.text_faults.specs.Placed.{placed_of, placed_from};
ghost use Rattle.text_faults.specs.Parsed.{IsParse};
ghost use Rattle.text_faults.specs.WordFault.{wronged, wronged_of, wrong_if, word_place, misplaced, first_wrong};

use crate::fault::{Operand, Wrong};
use crate::operand::is_operand;
use crate::parsed::Parsed;
use crate::placed::{Placed, next_placed};
use program_reader::Head;

/// A word of a line, its column, and what is wrong.
#[derive(Clone, Copy)]
pub(crate) struct WordFault<'a> {
    pub column: usize,
    pub word: &'a [u8],
    pub wrong: Wrong,
}

/// A word with what is wrong about it.
pub(crate) fn wrong_at(placed: Placed<'_>, wrong: Wrong) -> WordFault<'_>
    ensures { wronged_of result ≡ wronged (placed_of placed.entry) wrong }
{
    WordFault {
        column: placed.column,
        word: placed.word,
        wrong,
    }
}

/// Like it, but only if a test holds.
pub(crate) fn wrong_if(test: bool, placed: Placed<'_>, wrong: Wrong) -> Option<WordFault<'_>>
    ensures { option_map wronged_of result ≡ wrong_if test (placed_of placed.entry) wrong }
{
    if test {
        Some(wrong_at(placed, wrong))
    } else {
        None
    }
}

/// The place of a word alone.
pub(crate) fn word_place<'a>(placed: Placed<'a>) -> Placed<'a>
    ensures { placed_of result ≡ word_place (placed_of placed.entry) }
{
    Placed {
        column: placed.column,
        word: b"",
    }
}

// An operand that is missing after a word.
fn missing<'a>(behind: usize, operand: Operand) -> WordFault<'a>
    ensures { wronged_of result ≡ record { column = behind; word = []; wrong = Wrong.Missing operand } }
{
    WordFault {
        column: behind,
        word: b"",
        wrong: Wrong::Missing(operand),
    }
}

/// Why a line of this kind may not stand here.
pub(crate) fn misplaced(inside: bool, head: Head) -> Option<Wrong>
    ensures { result ≡ misplaced inside head }
{
    match head {
        Head::Blank | Head::Begin => None,
        Head::Unknown if inside => Some(Wrong::UnknownWord),
        _ if inside => None,
        _ => Some(Wrong::OutsideFunction),
    }
}

// A word after all operands.
fn extra(line: &[u8], at: usize) -> Option<WordFault<'_>>
    requires { at ≤ length line.now }
    ensures { (behind : ℕ) → option_map wronged_of result ≡ first_wrong behind [] (placed_from line.now at) }
{
    let (placed, _) = next_placed(line, at)?;
    Some(wrong_at(placed, Wrong::Extra))
}

/// The first operand of a line that isn't of its kind, is missing, or is one too many.
pub(crate) fn first_wrong<'a>(parsed: &Parsed<'a>) -> Option<WordFault<'a>>
    requires { IsParse parsed.now }
    ensures { option_map wronged_of result ≡ first_wrong (parsed.now.first.column + length parsed.now.first.word.now) parsed.now.form.now (placed_from parsed.now.line.now parsed.now.rest) }
{
    let line = parsed.line;
    let mut form = parsed.form;
    let mut behind = parsed.first.column + parsed.first.word.len();
    let mut at = parsed.rest;
    while let [operand, others @ ..] = form {
        let Some((placed, next)) = next_placed(line, at) else {
            return Some(missing(behind, *operand));
        };
        if !is_operand(*operand, placed.word) {
            return Some(wrong_at(placed, Wrong::NotOne(*operand)));
        }
        behind = placed.column + placed.word.len();
        at = next;
        form = others;
    }
    extra(line, at)
}
