// The timeline of a run.

ghost use Rattle.std.specs.Prelude.{◌≡◌, ◌<◌, ◌^◌, ◌-◌, ◌+◌, ◌++◌, None, false, length, OnOk, IfOk, IfErr};
ghost use Rattle.std.specs.List.{flat_map};
ghost use Rattle.json_text.specs.Json.{further};
ghost use Rattle.run_journal.specs.below.run_ledger.{refusal, after, opening, ledger_of, first_refused, refused_as_run};
ghost use Rattle.run_journal.specs.below.or_no_memory.{Reports};
ghost use Rattle.run_timeline.specs.Words.{counts_of, words_held};
ghost use Rattle.run_timeline.specs.Entries.{slice_name, entry_events};
ghost use Rattle.run_timeline.specs.Timeline.{events_of, lanes, timeline};
ghost use Rattle.run_timeline.specs.Pieces.{beginning, event_ending};

use crate::entry::{add_slice, slice_name};
use crate::events::{EventWriter, Place};
use crate::tasks::{Counter, EventContext, add_begins_and_ends, add_counted, add_run_ended};
use crate::words::{AccountCounts, objects_by, words_behind};
use run_journal::{Book, Entry, OrNoMemory, Program, Refused, RefusedAt, Settings};
use run_report::cleared_words;
use std::alloc::{AllocError, Global};

/// No text has this many entries or more: it wouldn't fit in memory.
const ENTRY_LIMIT: usize = 4294967295;

/// An entry by its number, with the name of its slice and the counts of the accounts before it.
#[derive(Clone, Copy)]
struct NumberedEntry<'a> {
    name: &'a [u8],
    was: AccountCounts,
    number: u32,
    entry: Entry,
}

// Adds the events of an entry that was entered; `held` words are held after it.
fn add_entered(
    writer: &mut EventWriter,
    program: &Program,
    book: &Book,
    entered: &NumberedEntry,
    held: u64,
) -> Result<(), AllocError>
    requires open { book.now.stopped ≡ false }
    requires few { entered.now.was.tasks + 1 < 2 ^ 64 }
    requires held { held ≡ words_held book.now.ledger }
    requires first { 0 < entered.now.number }
    ensures { OnOk result (writer.new.text.items ≡ writer.old.text.items ++ flat_map further (entry_events program.now entered.now.name.now entered.now.was book.now.ledger entered.now.number entered.now.entry)) }
{
    let number = entered.number;
    let entry = entered.entry;
    let was = entered.was;
    let context = EventContext {
        program,
        state: book.state(),
        place: Place {
            number,
            lane: entry.worker(),
        },
    };
    let chunks = Counter {
        name: b"chunks in use",
        unit: b"chunks",
    };
    let words = Counter {
        name: b"words held",
        unit: b"words",
    };
    add_slice(writer, entered.name, number, entry)?;
    add_begins_and_ends(writer, &context, was.tasks, entry.kind())?;
    add_counted(writer, &chunks, was.chunks, book.in_use(), number)?;
    add_counted(writer, &words, was.words, held, number)?;
    add_run_ended(writer, &context, book.end())
}

// Enters an entry, and says how many words are held behind it.
fn apply(book: &mut Book, held: u64, entry: Entry) -> Result<u64, OrNoMemory<Refused>>
    requires open { book.old.stopped ≡ false }
    requires held { held ≡ words_held book.old.ledger }
    ensures legal { OnOk result (refusal book.old.program book.old.settings book.old.ledger entry ≡ None) }
    ensures entered { OnOk result (book.new ≡ record book.old { ledger = after book.old.program book.old.settings book.old.ledger entry }) }
    ensures held { IfOk result (λ words. words ≡ words_held (after book.old.program book.old.settings book.old.ledger entry)) }
    ensures fails { IfErr result (Reports (refusal book.old.program book.old.settings book.old.ledger entry)) }
{
    let kind = entry.kind();
    let cleared = cleared_words(book, kind);
    let objects = objects_by(book.state(), kind);
    book.legal();
    book.apply(entry)?;
    match words_behind(book, kind, held, cleared, objects) {
        Some(words) => Ok(words),
        None => Err(OrNoMemory::NoMemory),
    }
}

/// How far a journal is entered: the number of the next entry, and the words that are held in front of it.
#[derive(Clone, Copy)]
struct Progress {
    number: u32,
    held: u64,
}

// Enters an entry, adds its events, and says how many words are held behind it.
fn enter(
    writer: &mut EventWriter,
    program: &Program,
    book: &mut Book,
    progress: Progress,
    entry: Entry,
) -> Result<u64, OrNoMemory<Refused>>
    requires open { book.old.stopped ≡ false }
    requires program { book.old.program ≡ program.now }
    requires held { progress.held ≡ words_held book.old.ledger }
    requires first { 0 < progress.number }
    ensures legal { OnOk result (refusal book.old.program book.old.settings book.old.ledger entry ≡ None) }
    ensures entered { OnOk result (book.new ≡ record book.old { ledger = after book.old.program book.old.settings book.old.ledger entry }) }
    ensures events { OnOk result (writer.new.text.items ≡ writer.old.text.items ++ flat_map further (entry_events program.now (slice_name program.now book.old.ledger.machine entry.kind) (counts_of book.old.ledger) (after book.old.program book.old.settings book.old.ledger entry) progress.number entry)) }
    ensures held { IfOk result (λ words. words ≡ words_held (after book.old.program book.old.settings book.old.ledger entry)) }
    ensures fails { IfErr result (Reports (refusal book.old.program book.old.settings book.old.ledger entry)) }
{
    let was = AccountCounts {
        tasks: book.tasks() as u64,
        chunks: book.in_use(),
        words: progress.held,
    };
    if was.tasks == u64::MAX {
        return Err(OrNoMemory::NoMemory);
    }
    let name = slice_name(writer.alloc, program, book.state(), entry.kind())?;
    let words = apply(book, progress.held, entry)?;
    let entered = NumberedEntry {
        name: name.as_slice(),
        was,
        number: progress.number,
        entry,
    };
    add_entered(writer, program, book, &entered, words)?;
    Ok(words)
}

// Enters the entries of a journal, and adds their events.
fn enter_all(
    writer: &mut EventWriter,
    program: &Program,
    book: &mut Book,
    journal: &[Entry],
) -> Result<(), OrNoMemory<RefusedAt>>
    requires few { length journal.now < 2 ^ 32 - 1 }
    requires first { book.old.ledger ≡ opening book.old.program book.old.settings }
    requires open { book.old.stopped ≡ false }
    requires program { book.old.program ≡ program.now }
    ensures book { OnOk result (book.new ≡ record book.old { ledger = ledger_of book.old.program book.old.settings journal.now }) }
    ensures events { OnOk result (writer.new.text.items ≡ writer.old.text.items ++ flat_map further (events_of book.old.program book.old.settings journal.now)) }
    ensures legal { OnOk result (first_refused book.old.program book.old.settings journal.now ≡ None) }
    ensures fails { IfErr result (Reports (first_refused book.old.program book.old.settings journal.now)) }
{
    let mut held: u64 = 0;
    let mut index: u32 = 1;
    for entry in journal {
        let progress = Progress {
            number: index,
            held,
        };
        match enter(writer, program, book, progress, *entry) {
            Ok(words) => {
                held = words;
                index += 1;
            }
            Err(OrNoMemory::Refused(cause)) => {
                let index = index as u64;
                return Err(OrNoMemory::Refused(RefusedAt { index, cause }));
            }
            Err(OrNoMemory::NoMemory) => return Err(OrNoMemory::NoMemory),
        }
    }
    Ok(())
}

// Adds the lanes of `workers` workers.
fn add_lanes(writer: &mut EventWriter, workers: u32) -> Result<(), AllocError>
    ensures { OnOk result (writer.new.text.items ≡ writer.old.text.items ++ flat_map further (lanes workers)) }
{
    for worker in 0..workers {
        writer.add_lane(worker)?;
    }
    Ok(())
}

// Begins the text, up to the events of entries.
fn begin(alloc: Global, workers: u32) -> Result<EventWriter, AllocError>
    ensures { IfOk result (λ writer. writer.text.items ≡ beginning workers) }
{
    let mut writer = EventWriter {
        alloc,
        text: Vec::new(alloc),
    };
    writer.text.extend_from_slice(b"{\"traceEvents\":[")?;
    writer.add_process()?;
    add_lanes(&mut writer, workers)?;
    Ok(writer)
}

// Ends the text.
fn end(writer: &mut EventWriter) -> Result<(), AllocError>
    ensures { OnOk result (writer.new.text.items ≡ writer.old.text.items ++ event_ending) }
{
    writer
        .text
        .extend_from_slice(b"],\"displayTimeUnit\":\"ms\"}\n")
}

/// The timeline of the journal of a whole run.
pub fn timeline_text(
    alloc: Global,
    program: &Program,
    settings: Settings,
    journal: &[Entry],
) -> Result<Vec<u8>, OrNoMemory<RefusedAt>>
    ensures whole { OnOk result (refused_as_run program.now settings journal.now ≡ None) }
    ensures text { IfOk result (λ text. text.items ≡ timeline program.now settings journal.now) }
    ensures fails { IfErr result (Reports (refused_as_run program.now settings journal.now)) }
{
    if journal.len() >= ENTRY_LIMIT {
        return Err(OrNoMemory::NoMemory);
    }
    let mut book = Book::open(alloc, program, settings)?;
    let mut writer = begin(alloc, settings.workers())?;
    enter_all(&mut writer, program, &mut book, journal)?;
    if book.end().is_none() {
        return Err(OrNoMemory::Refused(RefusedAt {
            index: journal.len() as u64 + 1,
            cause: Refused::Short,
        }));
    }
    end(&mut writer)?;
    Ok(writer.text)
}
