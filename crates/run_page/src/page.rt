// A run as a page.

ghost use Rattle.std.specs.Prelude.{◌≡◌, ◌++◌, None, Some, OnOk, IfOk, IfErr};
ghost use Rattle.run_trace.specs.below.or_no_memory.{Reports};
ghost use Rattle.run_ledger.specs.Entries.{after};
ghost use Rattle.run_ledger.specs.Journals.{opening, end_of, refused_as_run};
ghost use Rattle.page_data.specs.Run.{settings_and_start, entry, entries_from};
ghost use Rattle.run_page.specs.Page.{page};

use hh_lang::Program;
use hh_model::Machine;
use page_data::{add_ending, add_settings_and_start, close_entry, open_entry};
use page_frame::{add_head, add_tail};
use run_deltas::advance;
use run_journal::{Book, model_replay};
use run_ledger::{RefusedAt, RunEnd};
use run_trace::{Entry, OrNoMemory, Settings};
use std::alloc::{AllocError, Global};

// Enters an entry into the accounts, which accept it.
fn enter(book: &mut Book, of: Entry) -> Result<(), AllocError>
    ensures { OnOk result (book.new ≡ record book.old { ledger = after book.old.program book.old.settings book.old.ledger of }) }
{
    match book.apply(of) {
        Ok(()) => Ok(()),
        Err(_) => Err(AllocError),
    }
}

// Takes the steps of an entry, enters it, and adds what it changes.
fn add_next(
    alloc: Global,
    text: &mut Vec<u8>,
    program: &Program,
    machine: &mut Machine,
    book: &mut Book,
    of: Entry,
) -> Result<(), AllocError>
    requires program { machine.old.program ≡ program.now }
    requires state { machine.old.state ≡ book.old.ledger.machine }
    requires same { book.old.program ≡ program.now }
    ensures program { machine.new.program ≡ machine.old.program }
    ensures state { OnOk result (machine.new.state ≡ book.new.ledger.machine) }
    ensures book { OnOk result (book.new ≡ record book.old { ledger = after book.old.program book.old.settings book.old.ledger of }) }
    ensures text { OnOk result (text.new.items ≡ text.old.items ++ entry program.now book.old.ledger of book.new.ledger) }
{
    let delta = advance(alloc, program, machine, of.kind())?;
    enter(book, of)?;
    open_entry(alloc, text, program, of, &delta)?;
    close_entry(alloc, text, of.kind(), book.end().is_some(), book.heaps())
}

// Adds the entries of a journal.
fn add_entries(
    alloc: Global,
    text: &mut Vec<u8>,
    program: &Program,
    machine: &mut Machine,
    book: &mut Book,
    journal: &[Entry],
) -> Result<(), AllocError>
    requires program { machine.old.program ≡ program.now }
    requires state { machine.old.state ≡ book.old.ledger.machine }
    requires same { book.old.program ≡ program.now }
    ensures { OnOk result (text.new.items ≡ text.old.items ++ entries_from program.now book.old.settings book.old.ledger journal.now) }
{
    for of in journal {
        add_next(alloc, text, program, machine, book, *of)?;
    }
    Ok(())
}

// Adds the settings, where the run starts, and its entries.
fn add_run(
    alloc: Global,
    text: &mut Vec<u8>,
    program: &Program,
    settings: Settings,
    journal: &[Entry],
) -> Result<(), AllocError>
    ensures { OnOk result (text.new.items ≡ text.old.items ++ (settings_and_start program.now settings ++ entries_from program.now settings (opening program.now settings) journal.now)) }
{
    let mut machine = Machine::start(alloc, program, settings.version().field_limit())?;
    let mut book = Book::open(alloc, program, settings)?;
    add_settings_and_start(alloc, text, program, settings, machine.state())?;
    add_entries(alloc, text, program, &mut machine, &mut book, journal)
}

// Builds the page of a run that ended so.
#[tactic(auto, unfolding(crate::specs::Page::page))]
fn build(
    alloc: Global,
    title: &[u8],
    input: &[u8],
    program: &Program,
    settings: Settings,
    journal: &[Entry],
    end: RunEnd,
) -> Result<Vec<u8>, AllocError>
    ensures { end_of program.now settings journal.now ≡ Some end → IfOk result (λ text. text.items ≡ page title.now input.now program.now settings journal.now) }
{
    let mut text = Vec::new(alloc);
    add_head(&mut text, title, input)?;
    add_run(alloc, &mut text, program, settings, journal)?;
    add_ending(alloc, &mut text, end)?;
    add_tail(&mut text)?;
    Ok(text)
}

/// The page of the journal of a whole run, which bears this title. The input is the program's text with the trace
/// behind it, of which the page shows the lines before the trace line.
pub fn page_of(
    alloc: Global,
    title: &[u8],
    input: &[u8],
    program: &Program,
    settings: Settings,
    journal: &[Entry],
) -> Result<Vec<u8>, OrNoMemory<RefusedAt>>
    ensures whole { OnOk result (refused_as_run program.now settings journal.now ≡ None) }
    ensures text { IfOk result (λ text. text.items ≡ page title.now input.now program.now settings journal.now) }
    ensures fails { IfErr result (Reports (refused_as_run program.now settings journal.now)) }
{
    let end = model_replay(alloc, program, settings, journal)?;
    Ok(build(alloc, title, input, program, settings, journal, end)?)
}
