// The acts of texts, one after another.

ghost use Rattle.std.specs.Prelude.{◌≡◌, ◌<◌, ◌≤◌, ◌+◌, ◌^◌, ◌∷◌, [], length, IfSome, MatchOption};
ghost use Rattle.log_pieces.specs.Pieces.{acts_in, events_of_pieces};

use log_lines::{Act, next_line};
use log_pieces::LogPiece;
use log_tasks::{act_in, piece_text};
use plain_vec::Listed;

/// The first act that a text says, and what follows its line.
pub fn next_act(text: &[u8]) -> Option<(Act, &[u8])>
    ensures acts { MatchOption result (acts_in text.now ≡ []) (λ r. acts_in text.now ≡ r.0 ∷ acts_in r.1.now) }
    ensures shorter { IfSome result (λ r. length r.1.now < length text.now) }
{
    let mut left = text;
    'lines: loop {
        let (line, rest) = next_line(left);
        if let Some(act) = act_in(line) {
            return Some((act, after(rest)));
        }
        match rest {
            None => return None,
            Some(rest) => left = rest,
        }
    }
}

/// The rest of a text, if it goes on.
pub(crate) fn after(rest: Option<&[u8]>) -> &[u8]
    ensures { MatchOption rest.entry (result.now ≡ []) (λ r. result.now ≡ r.now) }
{
    match rest {
        Some(rest) => rest,
        None => &[],
    }
}

// A number and those of a text's acts, if the sum is below 2^32.
fn count_on(before: u32, text: &[u8]) -> Option<u32>
    ensures { MatchOption result (2 ^ 32 ≤ before + length (acts_in text.now)) (λ count. count ≡ before + length (acts_in text.now)) }
{
    let mut count = before;
    let mut left = text;
    while let Some((_, rest)) = next_act(left) {
        count = count.checked_add(1)?;
        left = rest;
    }
    Some(count)
}

/// How many acts pieces say, if there are fewer than 2^32.
pub fn count_acts(texts: &[Listed<u8>], pieces: &[LogPiece]) -> Option<u32>
    ensures { MatchOption result (2 ^ 32 ≤ length (events_of_pieces texts.now pieces.now)) (λ count. count ≡ length (events_of_pieces texts.now pieces.now)) }
{
    let mut count = 0;
    for piece in pieces {
        match count_on(count, piece_text(texts, *piece)) {
            Some(sum) => count = sum,
            None => return None,
        }
    }
    Some(count)
}
