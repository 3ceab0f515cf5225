// Reads the command-line arguments.

ghost use Rattle.std.specs.Prelude.{◌≡◌, ◌∷◌, ◌++◌, IfOk, OnOk, codes, map, option_map, option_and_then, string_bytes};
ghost use Rattle.clap.specs.Words.{found_of, rows_of, first_of};
ghost use Rattle.view_arguments.specs.ViewLine.{maybe_number, heaps_in, heaps_line, run_in, run_line, run_view, named_line, usage_line, view_arguments};

use crate::command::heaps_command;
use crate::faults::faults_line;
use crate::line::{InputFile, Picture, RunView, ViewCall};
use crate::page::page_line;
use clap::ArgMatches;
use command_line::{CommandLine, name_of, read_command_line, refused};
use image_check::read_short;
use std::alloc::{AllocError, Global};

/// The limit of objects drawn one by one, if none is given.
const USUAL_LIMIT: u64 = 300;

/// An owned text.
pub(crate) fn copy_of(alloc: Global, text: &str) -> Result<String, AllocError>
    ensures { IfOk result (λ own. string_bytes own ≡ text.now) }
{
    format!(in alloc; "{text}")
}

/// The file with this name, if there is one.
pub(crate) fn file_of(alloc: Global, name: Option<&str>) -> Result<Option<InputFile>, AllocError>
    ensures { IfOk result (λ file. file ≡ option_map (λ s. s.now) name.entry) }
{
    match name {
        None => Ok(None),
        Some(name) => {
            let own = copy_of(alloc, name)?;
            Ok(Some(InputFile::new(own)))
        }
    }
}

// The number that a text gives, if there is one; None if it isn't a number.
fn maybe_number(text: Option<&str>) -> Option<Option<u64>>
    ensures { result ≡ maybe_number (option_map (λ s. s.now) text.entry) }
{
    match text {
        None => Some(None),
        Some(text) => match read_short(text.as_bytes()) {
            None => None,
            Some(number) => Some(Some(number)),
        },
    }
}

// What an argument gives.
fn text_at<'w>(matches: &ArgMatches<'w>, id: &str) -> Option<&'w str>
    ensures { option_map (λ s. s.now) result ≡ first_of id.now (rows_of (found_of matches.now)) }
{
    matches.get_str(id)
}

// What the matches of `heaps` ask for.
fn heaps_of(alloc: Global, matches: &ArgMatches) -> Result<Option<ViewCall>, AllocError>
    ensures { IfOk result (λ view. view ≡ heaps_in (rows_of (found_of matches.now))) }
{
    let Some(path) = maybe_number(text_at(matches, "path")) else {
        return Ok(None);
    };
    let Some(limit) = maybe_number(text_at(matches, "limit")) else {
        return Ok(None);
    };
    let file = file_of(alloc, text_at(matches, "FILE"))?;
    let limit = limit.unwrap_or(USUAL_LIMIT);
    Ok(Some(ViewCall::Of {
        file,
        picture: Picture::Heaps { path, limit },
    }))
}

// What the words after `heaps` ask for.
fn heaps_line(alloc: Global, words: &[String]) -> Result<Option<ViewCall>, AllocError>
    ensures { IfOk result (λ view. view ≡ heaps_line (map string_bytes words.now)) }
{
    match heaps_command(alloc)?.try_get_matches_from(words) {
        Ok(matches) => heaps_of(alloc, &matches),
        Err(error) => refused(error.kind()),
    }
}

/// Adds copies of words.
pub(crate) fn add_words(
    alloc: Global,
    all: &mut Vec<String>,
    words: &[String],
) -> Result<(), AllocError>
    ensures { OnOk result (map string_bytes all.new.items ≡ map string_bytes all.old.items ++ map string_bytes words.now) }
{
    for word in words {
        let word = copy_of(alloc, word.as_str())?;
        all.push(word)?;
    }
    Ok(())
}

/// These words after `races`.
pub(crate) fn behind_races(alloc: Global, words: &[String]) -> Result<Vec<String>, AllocError>
    ensures { IfOk result (λ all. map string_bytes all.items ≡ codes "races" ∷ map string_bytes words.now) }
{
    let first = copy_of(alloc, "races")?;
    let mut all = Vec::new(alloc);
    all.push(first)?;
    add_words(alloc, &mut all, words)?;
    Ok(all)
}

// The view of a run that a command line of `races` asks for.
fn run_in(
    alloc: Global,
    view: RunView,
    line: Option<CommandLine>,
) -> Result<Option<ViewCall>, AllocError>
    ensures { IfOk result (λ asked. asked ≡ run_in view line.entry) }
{
    match line {
        Some(CommandLine::Races { file, settings }) => {
            let file = file_of(alloc, name_of(&file))?;
            let picture = Picture::Run { view, settings };
            Ok(Some(ViewCall::Of { file, picture }))
        }
        _ => Ok(None),
    }
}

// What the words after the name of a view of a run ask for.
fn run_line(alloc: Global, words: &[String], view: RunView) -> Result<Option<ViewCall>, AllocError>
    ensures { IfOk result (λ asked. asked ≡ run_line (map string_bytes words.now) view) }
{
    let all = behind_races(alloc, words)?;
    let line = read_command_line(alloc, all.as_slice())?;
    run_in(alloc, view, line)
}

// The view of a run with this name.
fn run_view(name: &str) -> Option<RunView>
    ensures { result ≡ run_view name.now }
{
    match name {
        "timeline" => Some(RunView::Timeline),
        "tasks" => Some(RunView::Tasks),
        "schedules" => Some(RunView::Schedules),
        "races" => Some(RunView::Races),
        "log" => Some(RunView::Log),
        _ => None,
    }
}

fn run_named(
    alloc: Global,
    words: &[String],
    view: Option<RunView>,
) -> Result<Option<ViewCall>, AllocError>
    ensures { IfOk result (λ asked. asked ≡ option_and_then (run_line (map string_bytes words.now)) view) }
{
    match view {
        None => Ok(None),
        Some(view) => run_line(alloc, words, view),
    }
}

fn usage_line(words: &[String]) -> Option<ViewCall>
    ensures { result ≡ usage_line (map string_bytes words.now) }
{
    match words {
        [] => Some(ViewCall::Usage),
        _ => None,
    }
}

// What a name and the words after it ask for.
fn named_line(alloc: Global, name: &str, words: &[String]) -> Result<Option<ViewCall>, AllocError>
    ensures { IfOk result (λ view. view ≡ named_line name.now (map string_bytes words.now)) }
{
    match name {
        "heaps" => heaps_line(alloc, words),
        "page" => page_line(alloc, words),
        "faults" => faults_line(alloc, words),
        "--help" => Ok(usage_line(words)),
        _ => run_named(alloc, words, run_view(name)),
    }
}

/// What the words after the program's name ask for; None if they are no command line.
pub fn read_view(alloc: Global, words: &[String]) -> Result<Option<ViewCall>, AllocError>
    ensures { IfOk result (λ view. view ≡ view_arguments (map string_bytes words.now)) }
{
    match words {
        [] => Ok(None),
        [name, rest @ ..] => named_line(alloc, name.as_str(), rest),
    }
}
