// Reads the words after `page`.

ghost use Rattle.std.specs.Prelude.{◌≡◌, ◌<◌, IfOk, IfSome, length, map, string_bytes};
ghost use Rattle.view_arguments.specs.PageLine.{page_in, page_line, page_of, title_at, titled};

use crate::line::{Picture, ViewCall};
use crate::read::{add_words, behind_races, copy_of, file_of};
use crate::title::PageTitle;
use command_line::{CommandLine, name_of, read_command_line};
use std::alloc::{AllocError, Global};

// The index of the first word `--title`.
fn title_at(words: &[String]) -> Option<usize>
    ensures place { result ≡ title_at (map string_bytes words.now) }
    ensures bound { IfSome result (λ at. at < length words.now) }
{
    let mut at = 0;
    for word in words {
        if word.as_str() == "--title" {
            return Some(at);
        }
        at += 1;
    }
    None
}

// The page with this title, for a command line of `races`.
fn page_in(
    alloc: Global,
    title: Option<PageTitle>,
    line: Option<CommandLine>,
) -> Result<Option<ViewCall>, AllocError>
    ensures { IfOk result (λ asked. asked ≡ page_in title line.entry) }
{
    match line {
        Some(CommandLine::Races { file, settings }) => {
            let file = file_of(alloc, name_of(&file))?;
            let picture = Picture::Page { title, settings };
            Ok(Some(ViewCall::Of { file, picture }))
        }
        _ => Ok(None),
    }
}

// The page with this title, by the words before `--title` and those after the title.
fn page_of(
    alloc: Global,
    title: Option<PageTitle>,
    before: &[String],
    behind: &[String],
) -> Result<Option<ViewCall>, AllocError>
    ensures { IfOk result (λ asked. asked ≡ page_of title (map string_bytes before.now) (map string_bytes behind.now)) }
{
    let mut all = behind_races(alloc, before)?;
    add_words(alloc, &mut all, behind)?;
    let line = read_command_line(alloc, all.as_slice())?;
    page_in(alloc, title, line)
}

// The page whose title is the first word after `--title`.
fn titled(
    alloc: Global,
    before: &[String],
    behind: &[String],
) -> Result<Option<ViewCall>, AllocError>
    ensures { IfOk result (λ asked. asked ≡ titled (map string_bytes before.now) (map string_bytes behind.now)) }
{
    match behind {
        [] => Ok(None),
        [title, rest @ ..] => {
            let title = copy_of(alloc, title.as_str())?;
            page_of(alloc, Some(PageTitle::new(title)), before, rest)
        }
    }
}

/// What the words after `page` ask for.
pub(crate) fn page_line(alloc: Global, words: &[String]) -> Result<Option<ViewCall>, AllocError>
    ensures { IfOk result (λ asked. asked ≡ page_line (map string_bytes words.now)) }
{
    match title_at(words) {
        None => page_of(alloc, None, words, &[]),
        Some(at) => titled(alloc, &words[..at], &words[at + 1..]),
    }
}
