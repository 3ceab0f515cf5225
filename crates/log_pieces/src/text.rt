// The texts of pieces, and the acts that lines say.

ghost use Rattle.std.specs.Prelude.{◌≡◌, option_to_list, slice_range};
ghost use Rattle.log_lines.specs.Grammar.{line_of};
ghost use Rattle.log_pieces.specs.Pieces.{act_said, acts_in, acts_of_piece, text_at};

use crate::piece::LogPiece;
use log_lines::{Act, LogLine, read_line};
use plain_vec::Listed;

/// The act that a line says, if it says one.
pub fn act_in(line: &[u8]) -> Option<Act>
    ensures { option_to_list result ≡ act_said (line_of line.now) }
{
    match read_line(line) {
        Ok(LogLine::Act(act)) => Some(act),
        _ => None,
    }
}

/// The text of a piece.
pub fn piece_text(texts: &[Listed<u8>], piece: LogPiece) -> &[u8]
    ensures { result.now ≡ slice_range (text_at texts.now piece.file) piece.begin piece.end }
{
    match texts.get(piece.file) {
        Some(text) => part_of(text.as_slice(), piece.begin, piece.end),
        None => &[],
    }
}

// The part of a text from one place up to another, as far as the text goes.
fn part_of(text: &[u8], begin: usize, end: usize) -> &[u8]
    ensures { result.now ≡ slice_range text.now begin end }
{
    let end = end.min(text.len());
    let begin = begin.min(end);
    &text[begin..end]
}

/// The lines of a piece. Where its text ends with a line feed, the empty line behind it says nothing, and is left out.
pub fn piece_lines(texts: &[Listed<u8>], piece: LogPiece) -> &[u8]
    ensures { acts_in result.now ≡ acts_of_piece texts.now piece }
{
    without_feed(piece_text(texts, piece))
}

// A text without the line feed that it ends with.
fn without_feed(text: &[u8]) -> &[u8]
    ensures { acts_in result.now ≡ acts_in text.now }
{
    if text.is_empty() {
        return text;
    }
    let end = text.len() - 1;
    let last = text[end];
    if last == b'\n' {
        return &text[..end];
    }
    text
}
