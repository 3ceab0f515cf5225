// Reads the words after `faults`.

ghost use Rattle.std.specs.Prelude.{◌≡◌, IfOk, Some, map, option_map, string_bytes};
ghost use Rattle.view_arguments.specs.FaultsLine.{any_file, begins_option, ends_options, faults_line, file_line, is_json, json_behind};

use crate::line::{Picture, ViewCall};
use crate::read::file_of;
use std::alloc::{AllocError, Global};

fn begins_option(word: &[u8]) -> bool
    ensures { result ≡ begins_option word.now }
{
    match word {
        [] => false,
        [first, ..] => *first == b'-',
    }
}

fn is_json(word: &str) -> bool
    ensures { result ≡ is_json word.now }
{
    word == "--json"
}

fn ends_options(word: &str) -> bool
    ensures { result ≡ ends_options word.now }
{
    word == "--"
}

// The faults of a file with this name, or of standard input.
fn faults_of(alloc: Global, json: bool, name: Option<&str>) -> Result<Option<ViewCall>, AllocError>
    ensures { IfOk result (λ asked. asked ≡ Some (ViewCall.Of (option_map (λ s. s.now) name.entry) (Picture.Faults json))) }
{
    let file = file_of(alloc, name)?;
    let picture = Picture::Faults { json };
    Ok(Some(ViewCall::Of { file, picture }))
}

// A file of any name, or none.
fn any_file(alloc: Global, json: bool, words: &[String]) -> Result<Option<ViewCall>, AllocError>
    ensures { IfOk result (λ asked. asked ≡ any_file json (map string_bytes words.now)) }
{
    match words {
        [] => faults_of(alloc, json, None),
        [name] => faults_of(alloc, json, Some(name.as_str())),
        [_, _, ..] => Ok(None),
    }
}

// What follows all options.
fn file_line(alloc: Global, json: bool, words: &[String]) -> Result<Option<ViewCall>, AllocError>
    ensures { IfOk result (λ asked. asked ≡ file_line json (map string_bytes words.now)) }
{
    match words {
        [] => any_file(alloc, json, words),
        [word, rest @ ..] => {
            if ends_options(word.as_str()) {
                return any_file(alloc, json, rest);
            }
            if begins_option(word.as_bytes()) {
                return Ok(None);
            }
            any_file(alloc, json, words)
        }
    }
}

// Whether the words are FILE and `--json`.
fn json_behind(words: &[String]) -> bool
    ensures { result ≡ json_behind (map string_bytes words.now) }
{
    match words {
        [name, flag] => !ends_options(name.as_str()) && is_json(flag.as_str()),
        _ => false,
    }
}

/// What the words after `faults` ask for.
pub(crate) fn faults_line(alloc: Global, words: &[String]) -> Result<Option<ViewCall>, AllocError>
    ensures { IfOk result (λ asked. asked ≡ faults_line (map string_bytes words.now)) }
{
    match words {
        [] => file_line(alloc, false, words),
        [word, rest @ ..] => {
            if is_json(word.as_str()) {
                return file_line(alloc, true, rest);
            }
            if json_behind(words) {
                return file_line(alloc, true, &words[..1]);
            }
            file_line(alloc, false, words)
        }
    }
}
