// The lines of a text, by their numbers.

ghost use Rattle.std.specs.Prelude.{◌≡◌, ◌++◌, ◌≤◌, ◌-◌, ◌∷◌, [], length, map, unwrap_or, slice_get, IfOk, OnOk};
ghost use Rattle.text_lines.specs.Lines.{lines_of, words_of};
ghost use Rattle.race_groups.specs.Text.{source_line, is_swap_line, spaced_words};

use std::alloc::{AllocError, Global};
use text_lines::{next_line, next_word, word_is};

/// The lines of a text, in order.
pub(crate) fn lines_in<'a>(alloc: Global, text: &'a [u8]) -> Result<Vec<&'a [u8]>, AllocError>
    ensures { IfOk result (λ lines. map (λ l. l.now) lines.items ≡ lines_of text.now) }
{
    let mut lines = Vec::new(alloc);
    let mut rest = text;
    loop {
        let (line, behind) = next_line(rest);
        lines.push(line)?;
        match behind {
            None => return Ok(lines),
            Some(below) => rest = below,
        }
    }
}

/// The line of this number, from 1; an empty one if there is none.
pub(crate) fn source_line<'a>(lines: &[&'a [u8]], number: u32) -> &'a [u8]
    ensures { result.now ≡ source_line (map (λ l. l.now) lines.now) number }
{
    let at = number.saturating_sub(1) as usize;
    match lines.get(at) {
        None => b"",
        Some(line) => *line,
    }
}

/// Whether a line is a compare and swap.
pub(crate) fn is_swap_line(line: &[u8]) -> bool
    ensures { result ≡ is_swap_line line.now }
{
    match next_word(line) {
        None => false,
        Some((word, _)) => word_is(word, b"cas"),
    }
}

// Adds a word, with a space before it.
fn add_word(text: &mut Vec<u8>, word: &[u8]) -> Result<(), AllocError>
    ensures { OnOk result (text.new.items ≡ text.old.items ++ 32 ∷ word.now) }
{
    text.push(b' ')?;
    text.extend_from_slice(word)
}

/// Adds the words of a line, with a space before each.
pub(crate) fn add_words(text: &mut Vec<u8>, line: &[u8]) -> Result<(), AllocError>
    ensures { OnOk result (text.new.items ≡ text.old.items ++ spaced_words line.now) }
{
    let mut rest = line;
    while let Some((word, behind)) = next_word(rest) {
        add_word(text, word)?;
        rest = behind;
    }
    Ok(())
}
