// Edits, and the nearest word.

ghost use Rattle.std.specs.Prelude.{◌≡◌, ◌≤◌, length, drop, map, option_map};
ghost use Rattle.near_words.specs.Near.{differing_rests, is_turned, is_within_one, is_within_two, first_such, nearest};

// What is left of a word after the prefix that it shares with another.
fn differing_rests<'a>(word: &'a [u8], other: &[u8]) -> &'a [u8]
    ensures { result.now ≡ differing_rests word.now other.now }
{
    let mut left = word;
    let mut right = other;
    while let [first, rest @ ..] = left {
        let [second, more @ ..] = right else {
            return left;
        };
        if first != second {
            return left;
        }
        left = rest;
        right = more;
    }
    left
}

// What follows the first letters of a word.
fn behind_first(word: &[u8], letters: usize) -> &[u8]
    ensures { result.now ≡ drop letters word.now }
{
    if letters <= word.len() {
        &word[letters..]
    } else {
        &word[word.len()..]
    }
}

// Whether two words begin with the same two letters, swapped.
fn is_turned(word: &[u8], other: &[u8]) -> bool
    ensures { result ≡ is_turned word.now other.now }
{
    match (word, other) {
        ([a, b, ..], [c, d, ..]) => a == d && b == c,
        _ => false,
    }
}

// Whether at most one edit leads from one word to the other.
fn is_within_one(word: &[u8], other: &[u8]) -> bool
    ensures { result ≡ is_within_one word.now other.now }
{
    let left = differing_rests(word, other);
    let right = differing_rests(other, word);
    behind_first(left, 1) == behind_first(right, 1)
        || behind_first(left, 1) == right
        || left == behind_first(right, 1)
        || (is_turned(left, right) && behind_first(left, 2) == behind_first(right, 2))
}

// Whether at most two edits lead from one word to the other.
fn is_within_two(word: &[u8], other: &[u8]) -> bool
    ensures { result ≡ is_within_two word.now other.now }
{
    let left = differing_rests(word, other);
    let right = differing_rests(other, word);
    is_within_one(behind_first(left, 1), behind_first(right, 1))
        || is_within_one(behind_first(left, 1), right)
        || is_within_one(left, behind_first(right, 1))
        || (is_turned(left, right) && is_within_one(behind_first(left, 2), behind_first(right, 2)))
}

// The first word that one edit leads to.
fn first_within_one<'a>(word: &[u8], words: &[&'a [u8]]) -> Option<&'a [u8]>
    ensures { option_map (λ w. w.now) result ≡ first_such (is_within_one word.now) (map (λ w. w.now) words.now) }
{
    let mut left = words;
    while let [other, rest @ ..] = left {
        if is_within_one(word, other) {
            return Some(*other);
        }
        left = rest;
    }
    None
}

// The first word that two edits lead to.
fn first_within_two<'a>(word: &[u8], words: &[&'a [u8]]) -> Option<&'a [u8]>
    ensures { option_map (λ w. w.now) result ≡ first_such (is_within_two word.now) (map (λ w. w.now) words.now) }
{
    let mut left = words;
    while let [other, rest @ ..] = left {
        if is_within_two(word, other) {
            return Some(*other);
        }
        left = rest;
    }
    None
}

/// The nearest of some words: the first that one edit leads to, or else the first that two lead to; None where there
/// is none, and for words that are too short.
pub fn nearest<'a>(word: &[u8], words: &[&'a [u8]]) -> Option<&'a [u8]>
    ensures { option_map (λ w. w.now) result ≡ nearest word.now (map (λ w. w.now) words.now) }
{
    if word.len() > 1 {
        if let Some(near) = first_within_one(word, words) {
            return Some(near);
        }
    }
    if word.len() > 4 {
        return first_within_two(word, words);
    }
    None
}
