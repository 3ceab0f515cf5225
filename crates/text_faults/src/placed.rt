// The words of a line, each with its column.

ghost use Rattle.std.specs.Prelude.{◌≡◌, ◌≤◌, ◌+◌, ◌∷◌, [], ◌<◌, drop, length, MatchOption, IfSome};
ghost use Rattle.std.specs.List.{position_or_len};
ghost use Rattle.text_lines.specs.Lines.{is_blank, begins_comment};
ghost use Rattle.text_faults.specs.Placed.{placed_of, placed_from};

/// A word, and the number of its first byte in the line, from 1.
#[derive(Clone, Copy)]
pub(crate) struct Placed<'a> {
    pub column: usize,
    pub word: &'a [u8],
}

fn is_blank_byte(byte: u8) -> bool
    ensures { result ≡ is_blank byte }
{
    byte == b' ' || byte == b'\t' || byte == b'\r'
}

// The first blank, or the end.
fn run_end(bytes: &[u8]) -> usize
    ensures end { result ≡ position_or_len is_blank bytes.now }
    ensures within { result ≤ length bytes.now }
{
    for (i, byte) in bytes.iter().enumerate() {
        if is_blank_byte(*byte) {
            return i;
        }
    }
    bytes.len()
}

// A line from an offset on.
fn rest_from(line: &[u8], at: usize) -> &[u8]
    requires { at ≤ length line.now }
    ensures { result.now ≡ drop at line.now }
{
    &line[at..]
}

fn begins_comment(word: &[u8]) -> bool
    ensures { result ≡ begins_comment word.now }
{
    match word {
        [] => false,
        [first, ..] => *first == b'#',
    }
}

// The word of n bytes at an offset, and the offset after the blank that follows; None if it begins a comment.
fn placed_at(line: &[u8], start: usize, size: usize) -> Option<(Placed<'_>, usize)>
    requires ends { size ≡ position_or_len is_blank (drop start line.now) }
    requires within { start + size ≤ length line.now }
    requires some { 0 < size }
    ensures words { MatchOption result (placed_from line.now start ≡ []) (λ r. placed_from line.now start ≡ placed_of r.0 ∷ placed_from line.now r.1) }
    ensures within { IfSome result (λ r. r.1 ≤ length line.now) }
    ensures sized { IfSome result (λ r. r.0.column + length r.0.word.now ≤ length line.now + 1) }
{
    let rest = rest_from(line, start);
    let word = &rest[..size];
    if begins_comment(word) {
        return None;
    }
    let placed = Placed {
        column: start + 1,
        word,
    };
    if start + size < line.len() {
        return Some((placed, start + size + 1));
    }
    Some((placed, line.len()))
}

/// The first word of a line from an offset on, and the offset after the blank that follows; None if no word comes before
/// the comment.
pub(crate) fn next_placed(line: &[u8], at: usize) -> Option<(Placed<'_>, usize)>
    requires { at ≤ length line.now }
    ensures words { MatchOption result (placed_from line.now at ≡ []) (λ r. placed_from line.now at ≡ placed_of r.0 ∷ placed_from line.now r.1) }
    ensures within { IfSome result (λ r. r.1 ≤ length line.now) }
    ensures sized { IfSome result (λ r. r.0.column + length r.0.word.now ≤ length line.now + 1) }
{
    let mut start = at;
    loop {
        let end = run_end(rest_from(line, start));
        if end > 0 {
            return placed_at(line, start, end);
        }
        if start == line.len() {
            return None;
        }
        start += 1;
    }
}
