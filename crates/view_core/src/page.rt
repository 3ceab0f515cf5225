// A run as a page.

ghost use Rattle.std.specs.Prelude.{◌≡◌, IfOk, length, nat_lt};
ghost use Rattle.refusal_replies.specs.below.whole_call.{Says};
ghost use Rattle.view_core.specs.Page.{ShowsJournalPage, ShowsPage, ShowsPageOf, ShowsShortPage, most_entries, title_of, trace_too_long};

use refusal_replies::{AnswerStatus, Refusal, Reply, refused};
use run_page::{Entry, OrNoMemory, Program, Settings, TraceInput, page_of, read_trace_input};
use std::alloc::{AllocError, Global};
use view_arguments::{InputFile, PageTitle};

/// A page has at most so many entries.
const MOST_ENTRIES: usize = 20_000;

// The title that is given, or the file's name.
fn title_of<'n>(title: &'n Option<PageTitle>, file: &'n Option<InputFile>) -> &'n [u8]
    ensures { result.now ≡ title_of title.now file.now }
{
    match (title, file) {
        (Some(title), _) => title.as_str().as_bytes(),
        (None, Some(name)) => name.as_str().as_bytes(),
        (None, None) => b"a run",
    }
}

// The refusal of a trace of more entries than a page has.
fn refused_as_long(alloc: Global, entries: usize) -> Result<Reply, AllocError>
    ensures { IfOk result (Says AnswerStatus.Trace (trace_too_long entries)) }
{
    let text = format!(in alloc;
        "end: page refused entries {entries}; a page has at most 20000: run a smaller input, or use hhview timeline or tasks\n"
    )?;
    Ok(Reply::of_text(AnswerStatus::Trace, text))
}

// Shows the page of a journal.
fn show_journal_page(
    alloc: Global,
    title: &[u8],
    input: &[u8],
    program: &Program,
    settings: Settings,
    journal: &[Entry],
) -> Result<Reply, AllocError>
    ensures { IfOk result (ShowsJournalPage title.now input.now program.now settings journal.now) }
{
    match page_of(alloc, title, input, program, settings, journal) {
        Ok(page) => Ok(Reply::of_bytes(AnswerStatus::Done, page)),
        Err(OrNoMemory::Refused(entry)) => refused(alloc, Refusal::Entry(entry)),
        Err(OrNoMemory::NoMemory) => Err(AllocError),
    }
}

// Shows the page of a journal that isn't too long.
fn show_short_page(
    alloc: Global,
    title: &[u8],
    input: &[u8],
    program: &Program,
    settings: Settings,
    journal: &[Entry],
) -> Result<Reply, AllocError>
    ensures { IfOk result (ShowsShortPage (nat_lt most_entries (length journal.now)) title.now input.now program.now settings journal.now) }
{
    if journal.len() > MOST_ENTRIES {
        return refused_as_long(alloc, journal.len());
    }
    show_journal_page(alloc, title, input, program, settings, journal)
}

// Shows the run of a trace as a page of this title.
fn show_page_of(
    alloc: Global,
    title: &[u8],
    settings: Settings,
    input: &[u8],
    read: &TraceInput,
) -> Result<Reply, AllocError>
    ensures { IfOk result (ShowsPageOf title.now settings input.now read.now) }
{
    let TraceInput { program, trace } = read;
    let settings = settings.with_version(trace.version);
    show_short_page(
        alloc,
        title,
        input,
        program,
        settings,
        trace.entries.as_slice(),
    )
}

// Shows the run of a program with its trace as a page of this title.
fn show_titled(
    alloc: Global,
    title: &[u8],
    settings: Settings,
    input: &[u8],
) -> Result<Reply, AllocError>
    ensures { IfOk result (ShowsPage title.now settings input.now) }
{
    match read_trace_input(alloc, input) {
        Ok(read) => show_page_of(alloc, title, settings, input, &read),
        Err(OrNoMemory::Refused(fault)) => refused(alloc, Refusal::of_input(fault)),
        Err(OrNoMemory::NoMemory) => Err(AllocError),
    }
}

/// Shows the run of a program with its trace as a page, which bears its file's name if no title is given.
pub(crate) fn show_page(
    alloc: Global,
    title: &Option<PageTitle>,
    file: &Option<InputFile>,
    settings: Settings,
    input: &[u8],
) -> Result<Reply, AllocError>
    ensures { IfOk result (ShowsPage (title_of title.now file.now) settings input.now) }
{
    show_titled(alloc, title_of(title, file), settings, input)
}
