// The words of a line.

ghost use Rattle.std.specs.Prelude.{◌≡◌, ◌≤◌, ◌<◌, [], ◌∷◌, length, drop, MatchOption, IfSome, ◌+◌};
ghost use Rattle.std.specs.List.{position_or_len};
ghost use Rattle.std.specs.Str.{bytes_eq};
ghost use Rattle.text_lines.specs.Lines.{is_blank, runs_of, words_of};

fn is_blank_byte(byte: u8) -> bool
    ensures { result ≡ is_blank byte }
{
    byte == b' ' || byte == b'\t' || byte == b'\r'
}

// Where the first run of non-blank bytes ends.
fn run_end(line: &[u8]) -> usize
    ensures end { result ≡ position_or_len is_blank line.now }
    ensures within { result ≤ length line.now }
{
    for (i, byte) in line.iter().enumerate() {
        if is_blank_byte(*byte) {
            return i;
        }
    }
    line.len()
}

/// What follows the byte at a position; empty if nothing does.
pub fn behind(line: &[u8], end: usize) -> &[u8]
    requires { end ≤ length line.now }
    ensures { result.now ≡ drop (end + 1) line.now }
{
    if end < line.len() {
        &line[end + 1..]
    } else {
        &line[end..]
    }
}

// The first run and what follows the blank after it; None if there are only blanks.
fn next_run(line: &[u8]) -> Option<(&[u8], &[u8])>
    ensures runs { MatchOption result (runs_of line.now ≡ []) (λ r. runs_of line.now ≡ r.0.now ∷ runs_of r.1.now) }
    ensures shorter { IfSome result (λ r. length r.0.now + length r.1.now ≤ length line.now) }
    ensures word { IfSome result (λ r. 0 < length r.0.now) }
{
    let mut rest = line;
    loop {
        let end = run_end(rest);
        if end > 0 {
            return Some((&rest[..end], behind(rest, end)));
        }
        if rest.is_empty() {
            return None;
        }
        rest = &rest[1..];
    }
}

/// The first word of a line and the rest of the line; None if there is no word before its comment.
pub fn next_word(line: &[u8]) -> Option<(&[u8], &[u8])>
    ensures words { MatchOption result (words_of line.now ≡ []) (λ r. words_of line.now ≡ r.0.now ∷ words_of r.1.now) }
    ensures shorter { IfSome result (λ r. length r.0.now + length r.1.now ≤ length line.now) }
    ensures word { IfSome result (λ r. 0 < length r.0.now) }
{
    let (word, rest) = next_run(line)?;
    if word.first() == Some(&b'#') {
        return None;
    }
    Some((word, rest))
}

/// Whether a word equals this text.
pub fn word_is(word: &[u8], text: &[u8]) -> bool
    ensures { result ≡ bytes_eq word.now text.now }
{
    word == text
}
