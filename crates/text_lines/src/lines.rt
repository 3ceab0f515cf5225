// The lines of a text.

ghost use Rattle.std.specs.Prelude.{◌≡◌, ◌≤◌, ◌+◌, ◌==◌, ◌∷◌, [], length, IfSome, MatchOption};
ghost use Rattle.std.specs.List.{position_or_len};
ghost use Rattle.text_lines.specs.Lines.{lines_of};

/// The most bytes of a text that is read.
pub const MOST_BYTES: usize = 16777216;

/// Where the first line ends: at its line feed, or at the end of the text.
pub fn line_end(text: &[u8]) -> usize
    ensures end { result ≡ position_or_len (λ c. c == 10) text.now }
    ensures within { result ≤ length text.now }
{
    for (i, byte) in text.iter().enumerate() {
        if *byte == b'\n' {
            return i;
        }
    }
    text.len()
}

/// The first line of a text, and the text after its line feed; None if that line is the last.
pub fn next_line(text: &[u8]) -> (&[u8], Option<&[u8]>)
    ensures lines { MatchOption result.1 (lines_of text.now ≡ result.0.now ∷ []) (λ rest. lines_of text.now ≡ result.0.now ∷ lines_of rest.now) }
    ensures shorter { IfSome result.1 (λ rest. length result.0.now + 1 + length rest.now ≡ length text.now) }
{
    let end = line_end(text);
    if end == text.len() {
        return (text, None);
    }
    (&text[..end], Some(&text[end + 1..]))
}
