// The words of a line, one after another.

ghost use Rattle.std.specs.Prelude.{◌≡◌, ◌≤◌, ◌<◌, ◌+◌, ◌^◌, [], ◌∷◌, length, drop, MatchOption, IfOk, IfSome, option_map};
ghost use Rattle.std.specs.List.{position_or_len};
ghost use Rattle.log_lines.specs.Words.{is_space, words_of, numeral_value, or_bad, number_at, has_word, nothing_left, site_at, goes_on, is_site};
ghost use Rattle.log_lines.specs.Limits.{IsLogNumber, IsSite};
ghost use Rattle.log_lines.specs.Rest.{operands, ReadsAs};

use crate::cause::LogCause;
use crate::number::read_number;

// Where the first word ends: at its space, or with the text.
fn word_end(text: &[u8]) -> usize
    ensures end { result ≡ position_or_len is_space text.now }
    ensures within { result ≤ length text.now }
{
    for (i, byte) in text.iter().enumerate() {
        if *byte == b' ' {
            return i;
        }
    }
    text.len()
}

// The first word of a text, and the rest from its space on.
pub(crate) fn first_word(text: &[u8]) -> (&[u8], &[u8])
    ensures { words_of text.now ≡ result.0.now ∷ operands result.1.now }
{
    let end = word_end(text);
    (&text[..end], &text[end..])
}

// The next word behind a space, if there is one, and the rest from the space behind it on.
fn next_word(rest: &[u8]) -> Option<(&[u8], &[u8])>
    ensures { MatchOption result (operands rest.now ≡ []) (λ r. operands rest.now ≡ r.0.now ∷ operands r.1.now) }
{
    if rest.is_empty() {
        return None;
    }
    Some(first_word(&rest[1..]))
}

// The number of a word.
fn number(word: &[u8]) -> Result<u64, LogCause>
    ensures number { result ≡ or_bad (numeral_value word.now) }
    ensures below { IfOk result IsLogNumber }
{
    read_number(word).ok_or(LogCause::BadNumber)
}

/// The next word's number, and the rest.
pub(crate) fn number_at(rest: &[u8]) -> Result<(u64, &[u8]), LogCause>
    ensures read { ReadsAs (λ x. (x.0, operands x.1.now)) result (number_at (operands rest.now)) }
    ensures below { IfOk result (λ x. IsLogNumber x.0) }
{
    let Some((word, rest)) = next_word(rest) else {
        return Err(LogCause::WrongCount);
    };
    let number = number(word)?;
    Ok((number, rest))
}

/// Whether a word is left.
pub(crate) fn has_word(rest: &[u8]) -> bool
    ensures { result ≡ has_word (operands rest.now) }
{
    !rest.is_empty()
}

/// No word may be left.
pub(crate) fn nothing_left(rest: &[u8]) -> Result<(), LogCause>
    ensures { result ≡ nothing_left (operands rest.now) }
{
    if has_word(rest) {
        Err(LogCause::WrongCount)
    } else {
        Ok(())
    }
}

// Whether a word is a site, or a text's first word is one.
fn is_site(word: &[u8]) -> bool
    ensures { result ≡ is_site word.now }
{
    !word.is_empty() && word[0] == b'@'
}

/// The site, where there is one; no other word is left.
pub(crate) fn site_at(rest: &[u8]) -> Result<Option<u64>, LogCause>
    ensures read { result ≡ site_at (operands rest.now) }
    ensures below { IfOk result IsSite }
{
    let Some((word, rest)) = next_word(rest) else {
        return Ok(None);
    };
    if !is_site(word) {
        return Err(LogCause::WrongCount);
    }
    let site = number(&word[1..])?;
    nothing_left(rest)?;
    Ok(Some(site))
}

/// Whether a word is left that is no site.
pub(crate) fn goes_on(rest: &[u8]) -> bool
    ensures { result ≡ goes_on (operands rest.now) }
{
    if rest.is_empty() {
        return false;
    }
    !is_site(&rest[1..])
}
