// Where the lines of a log's text end.

ghost use Rattle.std.specs.Prelude.{◌≡◌, ◌≤◌, ◌+◌, ◌==◌, ◌∷◌, [], length, IfSome, MatchOption};
ghost use Rattle.std.specs.List.{position_or_len};
ghost use Rattle.text_lines.specs.Lines.{lines_of};

use memchr::memchr;

/// Most lines end within so many bytes.
const SHORT: usize = 32;

// Where the first line ends, by a search of the whole text.
fn far_end(text: &[u8]) -> usize
    ensures end { result ≡ position_or_len (λ c. c == 10) text.now }
    ensures within { result ≤ length text.now }
{
    match memchr(b'\n', text) {
        Some(end) => end,
        None => text.len(),
    }
}

/// Where the first line ends: at its line feed, or at the end of the text.
#[inline(always)]
pub fn line_end(text: &[u8]) -> usize
    ensures end { result ≡ position_or_len (λ c. c == 10) text.now }
    ensures within { result ≤ length text.now }
{
    if text.len() < SHORT {
        return far_end(text);
    }
    match memchr(b'\n', &text[..SHORT]) {
        Some(end) => end,
        None => far_end(text),
    }
}

/// The first line of a text, and the text after its line feed; None if that line is the last.
#[inline(always)]
pub fn next_line(text: &[u8]) -> (&[u8], Option<&[u8]>)
    ensures lines { MatchOption result.1 (lines_of text.now ≡ result.0.now ∷ []) (λ rest. lines_of text.now ≡ result.0.now ∷ lines_of rest.now) }
    ensures shorter { IfSome result.1 (λ rest. length result.0.now + 1 + length rest.now ≡ length text.now) }
{
    let end = line_end(text);
    if end == text.len() {
        return (text, None);
    }
    (&text[..end], Some(&text[end + 1..]))
}
