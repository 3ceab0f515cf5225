// The words of a call.

ghost use Rattle.std.specs.Prelude.{◌≡◌, ◌≤◌, IfOk, length, map, option_map, string_bytes};
ghost use Rattle.std.specs.List.{position_or_len};
ghost use Rattle.log_request.specs.Request.{is_other, names_end, with_left, from_names, request_of, log_request, is_usage};

use crate::options::{Options, word_is};
use crate::view::LogView;
use std::alloc::{AllocError, Global};

// Whether a word is no name: it is empty, or begins with a hyphen.
fn is_other(word: &str) -> bool
    ensures { result ≡ is_other word.now }
{
    match word.as_bytes() {
        [] => true,
        [first, ..] => *first == b'-',
    }
}

// How many words before the first that is no name.
fn names_end(words: &[String]) -> usize
    ensures end { result ≡ names_end (map string_bytes words.now) }
    ensures within { result ≤ length words.now }
{
    for (i, word) in words.iter().enumerate() {
        if is_other(word.as_str()) {
            return i;
        }
    }
    words.len()
}

// What names and the options around them ask for, if no other word is left.
fn with_left(names: &[String], left: usize, options: Options) -> Option<(LogView, &[String])>
    ensures { option_map (λ c. (c.0, map string_bytes c.1.now)) result ≡ with_left (map string_bytes names.now) left options }
{
    if !names.is_empty() && left == 0 && !options.is_due() {
        Some((options.into_view(), names))
    } else {
        None
    }
}

// What the words from the first name on ask for, behind some options.
fn from_names(
    options: Options,
    words: &[String],
) -> Result<Option<(LogView, &[String])>, AllocError>
    ensures { IfOk result (λ r. option_map (λ c. (c.0, map string_bytes c.1.now)) r ≡ from_names options (map string_bytes words.now)) }
{
    let mut options = options;
    let end = names_end(words);
    let rest = &words[end..];
    let taken = options.take_words(rest)?;
    Ok(with_left(&words[..end], rest.len() - taken, options))
}

// What the words after `check` ask for.
fn request_of(alloc: Global, words: &[String]) -> Result<Option<(LogView, &[String])>, AllocError>
    ensures { IfOk result (λ r. option_map (λ c. (c.0, map string_bytes c.1.now)) r ≡ request_of (map string_bytes words.now)) }
{
    let mut options = Options::new(alloc);
    let first = options.take_words(words)?;
    from_names(options, &words[first..])
}

/// What is shown of a log, and the names of its files, if the words ask for its check.
pub fn read_request(
    alloc: Global,
    words: &[String],
) -> Result<Option<(LogView, &[String])>, AllocError>
    ensures { IfOk result (λ r. option_map (λ c. (c.0, map string_bytes c.1.now)) r ≡ log_request (map string_bytes words.now)) }
{
    match words {
        [] => Ok(None),
        [verb, rest @ ..] => {
            if word_is(verb.as_str(), "check") {
                request_of(alloc, rest)
            } else {
                Ok(None)
            }
        }
    }
}

/// Whether the words ask how the program is called.
pub fn is_usage(words: &[String]) -> bool
    ensures { result ≡ is_usage (map string_bytes words.now) }
{
    words.len() == 1 && word_is(words[0].as_str(), "--help")
}
