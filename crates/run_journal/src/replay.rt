// A journal replayed on the machine that never collects.

ghost use Rattle.std.specs.Prelude.{◌≡◌, Some, None, false, IfOk, OnOk, IfErr};
ghost use Rattle.run_trace.specs.below.or_no_memory.{Reports};
ghost use Rattle.run_ledger.specs.Journals.{after_all, ledger_of, end_of, first_refused_from, first_refused, refused_as_run};

use crate::book::Book;
use hh_lang::Program;
use run_ledger::{Refused, RefusedAt, RunEnd};
use run_trace::{Entry, OrNoMemory, Settings};
use std::alloc::{AllocError, Global};

// Applies the entries of a journal.
fn enter_all(book: &mut Book, journal: &[Entry]) -> Result<(), OrNoMemory<RefusedAt>>
    requires { book.old.stopped ≡ false }
    ensures book { OnOk result (book.new ≡ record book.old { ledger = after_all book.old.program book.old.settings book.old.ledger journal.now }) }
    ensures legal { OnOk result (first_refused_from book.old.program book.old.settings book.old.ledger 1 journal.now ≡ None) }
    ensures fails { IfErr result (Reports (first_refused_from book.old.program book.old.settings book.old.ledger 1 journal.now)) }
{
    let mut index = 1;
    for entry in journal {
        match book.apply(*entry) {
            Ok(()) => index += 1,
            Err(OrNoMemory::Refused(cause)) => {
                return Err(OrNoMemory::Refused(RefusedAt { index, cause }));
            }
            Err(OrNoMemory::NoMemory) => return Err(OrNoMemory::NoMemory),
        }
    }
    Ok(())
}

/// The accounts of a legal journal: how its run ended, if it did, its outputs, and more. Another journal is refused at
/// its first entry that is.
pub fn replayed<'p>(
    alloc: Global,
    program: &'p Program,
    settings: Settings,
    journal: &[Entry],
) -> Result<Book<'p>, OrNoMemory<RefusedAt>>
    ensures book { IfOk result (λ b. b ≡ record { program = program.entry.now; settings = settings; ledger = ledger_of program.entry.now settings journal.now; stopped = false }) }
    ensures legal { OnOk result (first_refused program.entry.now settings journal.now ≡ None) }
    ensures fails { IfErr result (Reports (first_refused program.entry.now settings journal.now)) }
{
    let mut book = Book::open(alloc, program, settings)?;
    match enter_all(&mut book, journal) {
        Ok(()) => Ok(book),
        Err(error) => {
            drop(book);
            Err(error)
        }
    }
}

/// How the run of a journal ended, if the journal is legal and has an end. Another one is refused at its first entry that
/// is; or none is, and the journal stops before an end of the run: then the number is one past its last entry, and the
/// cause is `Short`.
pub fn model_replay(
    alloc: Global,
    program: &Program,
    settings: Settings,
    journal: &[Entry],
) -> Result<RunEnd, OrNoMemory<RefusedAt>>
    ensures whole { OnOk result (refused_as_run program.now settings journal.now ≡ None) }
    ensures end { IfOk result (λ e. end_of program.now settings journal.now ≡ Some e) }
    ensures fails { IfErr result (Reports (refused_as_run program.now settings journal.now)) }
{
    let book = replayed(alloc, program, settings, journal)?;
    let end = book.end();
    drop(book);
    match end {
        Some(end) => Ok(end),
        None => Err(OrNoMemory::Refused(RefusedAt {
            index: journal.len() as u64 + 1,
            cause: Refused::Short,
        })),
    }
}
