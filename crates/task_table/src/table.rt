// The table of the tasks of a run.

ghost use Rattle.std.specs.Prelude.{◌≡◌, ◌++◌, ◌∷◌, [], None, false, slice_get, OnOk, IfOk, IfErr};
ghost use Rattle.run_journal.specs.below.run_trace.{AreSettings};
ghost use Rattle.run_journal.specs.below.run_ledger.{refusal, after, opening, ledger_of, first_refused, refused_as_run};
ghost use Rattle.run_journal.specs.below.or_no_memory.{Reports};
ghost use Rattle.task_table.specs.Rows.{fresh_row, rows_with, rows_from};
ghost use Rattle.task_table.specs.Table.{first_line, task_row_line, task_row_lines, table};

use crate::lines::add_line;
use crate::row::TaskRow;
use crate::rows::{fresh_row, tell_entry};
use run_journal::{Book, Entry, Listed, OrNoMemory, Program, Refused, RefusedAt, Settings};
use run_report::cleared_words;
use std::alloc::{AllocError, Global};

// Enters an entry, and tells what it tells.
fn enter(
    program: &Program,
    book: &mut Book,
    rows: &mut Listed<TaskRow>,
    entry: Entry,
) -> Result<(), OrNoMemory<Refused>>
    requires open { book.old.stopped ≡ false }
    ensures legal { OnOk result (refusal book.old.program book.old.settings book.old.ledger entry ≡ None) }
    ensures entered { OnOk result (book.new ≡ record book.old { ledger = after book.old.program book.old.settings book.old.ledger entry }) }
    ensures rows { OnOk result (rows.new ≡ rows_with program.now book.old.ledger (after book.old.program book.old.settings book.old.ledger entry) entry rows.old) }
    ensures fails { IfErr result (Reports (refusal book.old.program book.old.settings book.old.ledger entry)) }
{
    let made = book.tasks() as u64;
    if made == u64::MAX {
        return Err(OrNoMemory::NoMemory);
    }
    let kind = entry.kind();
    let before = cleared_words(book, kind);
    book.apply(entry)?;
    let lost = before.saturating_sub(cleared_words(book, kind));
    Ok(tell_entry(program, book.state(), made, lost, entry, rows)?)
}

// Enters the entries of a journal, and tells what they tell.
fn enter_all(
    program: &Program,
    book: &mut Book,
    rows: &mut Listed<TaskRow>,
    journal: &[Entry],
) -> Result<(), OrNoMemory<RefusedAt>>
    requires settings { AreSettings book.old.settings }
    requires first { book.old.ledger ≡ opening book.old.program book.old.settings }
    requires open { book.old.stopped ≡ false }
    requires program { book.old.program ≡ program.now }
    ensures book { OnOk result (book.new ≡ record book.old { ledger = ledger_of book.old.program book.old.settings journal.now }) }
    ensures rows { OnOk result (rows.new ≡ rows_from book.old.program book.old.settings (opening book.old.program book.old.settings) rows.old journal.now) }
    ensures legal { OnOk result (first_refused book.old.program book.old.settings journal.now ≡ None) }
    ensures fails { IfErr result (Reports (first_refused book.old.program book.old.settings journal.now)) }
{
    let mut index: u64 = 1;
    for entry in journal {
        match enter(program, book, rows, *entry) {
            Ok(()) => index += 1,
            Err(OrNoMemory::Refused(cause)) => {
                return Err(OrNoMemory::Refused(RefusedAt { index, cause }));
            }
            Err(OrNoMemory::NoMemory) => return Err(OrNoMemory::NoMemory),
        }
    }
    Ok(())
}

// Adds the line of a task.
fn add_row(
    alloc: Global,
    text: &mut Vec<u8>,
    program: &Program,
    book: &Book,
    number: u32,
    row: TaskRow,
) -> Result<(), AllocError>
    ensures { OnOk result (text.new.items ≡ text.old.items ++ task_row_line program.now book.now.ledger number (slice_get book.now.ledger.machine.tasks number) row) }
{
    match book.state().tasks.get(number as usize) {
        None => Ok(()),
        Some(task) => add_line(
            alloc,
            text,
            program,
            book.state(),
            book.end(),
            number,
            task,
            row,
        ),
    }
}

// Adds the lines of the tasks.
fn add_rows(
    alloc: Global,
    text: &mut Vec<u8>,
    program: &Program,
    book: &Book,
    rows: &[TaskRow],
) -> Result<(), AllocError>
    ensures { OnOk result (text.new.items ≡ text.old.items ++ task_row_lines program.now book.now.ledger 0 rows.now) }
{
    let mut number: u32 = 0;
    for row in rows {
        add_row(alloc, text, program, book, number, *row)?;
        if number == u32::MAX {
            return Err(AllocError);
        }
        number += 1;
    }
    Ok(())
}

// The text of these rows.
fn text_of(
    alloc: Global,
    program: &Program,
    book: &Book,
    rows: &[TaskRow],
) -> Result<Vec<u8>, AllocError>
    ensures { IfOk result (λ text. text.items ≡ first_line ++ task_row_lines program.now book.now.ledger 0 rows.now) }
{
    let mut text = Vec::new(alloc);
    text.extend_from_slice(
        b"task,parent,line,function,number,depth,worker,entries,steps,objects,words,dropped,end\n",
    )?;
    add_rows(alloc, &mut text, program, book, rows)?;
    Ok(text)
}

// The rows before the first entry.
fn first_rows(alloc: Global) -> Result<Listed<TaskRow>, AllocError>
    ensures { IfOk result (λ rows. rows ≡ fresh_row None ∷ []) }
{
    let mut rows = Listed::new(alloc);
    rows.push(fresh_row(None))?;
    Ok(rows)
}

/// The table of the tasks of a whole run, by its journal.
pub fn table_text(
    alloc: Global,
    program: &Program,
    settings: Settings,
    journal: &[Entry],
) -> Result<Vec<u8>, OrNoMemory<RefusedAt>>
    ensures whole { OnOk result (refused_as_run program.now settings journal.now ≡ None) }
    ensures text { IfOk result (λ text. text.items ≡ table program.now settings journal.now) }
    ensures fails { IfErr result (Reports (refused_as_run program.now settings journal.now)) }
{
    let _workers = settings.workers();
    let mut book = Book::open(alloc, program, settings)?;
    let mut rows = first_rows(alloc)?;
    enter_all(program, &mut book, &mut rows, journal)?;
    if book.end().is_none() {
        return Err(OrNoMemory::Refused(RefusedAt {
            index: journal.len() as u64 + 1,
            cause: Refused::Short,
        }));
    }
    Ok(text_of(alloc, program, &book, rows.as_slice())?)
}
