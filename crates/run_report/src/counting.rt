// A journal replayed, with the totals of its entries.

ghost use Rattle.std.specs.Prelude.{◌≡◌, None, false, IfOk, OnOk, IfErr};
ghost use Rattle.run_trace.specs.Settings.{AreSettings};
ghost use Rattle.run_trace.specs.below.or_no_memory.{Reports};
ghost use Rattle.run_ledger.specs.Entries.{refusal, after};
ghost use Rattle.run_ledger.specs.Journals.{opening, ledger_of, first_refused};
ghost use Rattle.run_report.specs.Totals.{SumsFit, totals_joined, cleared_words, entry_totals, totals_from, report_from};

use crate::totals::Totals;
use hh_lang::Program;
use run_journal::Book;
use run_ledger::{Refused, RefusedAt, Report};
use run_trace::{Entry, Kind, OrNoMemory, Settings};
use std::alloc::Global;

/// The accounts of a journal, and the totals of its entries.
#[derive(Drop)]
pub(crate) struct CountedJournal<'p> {
    pub(crate) book: Book<'p>,
    pub(crate) totals: Totals,
}

/// The words of the heap that an entry collects or sweeps, and 0 for another entry.
pub fn cleared_words(book: &Book, kind: Kind) -> u64
    requires { book.now.stopped ≡ false }
    ensures { result ≡ cleared_words book.now.ledger kind }
{
    match kind {
        Kind::End(task, _, _, _) => book.words(task),
        Kind::Sweep(task, _) => book.words(task),
        _ => 0,
    }
}

// Applies an entry, and adds what it counts to the totals.
fn enter(book: &mut Book, totals: Totals, entry: Entry) -> Result<Totals, OrNoMemory<Refused>>
    requires open { book.old.stopped ≡ false }
    requires few { refusal book.old.program book.old.settings book.old.ledger entry ≡ None → SumsFit (totals_joined totals (entry_totals book.old.program book.old.settings book.old.ledger entry)) }
    ensures legal { OnOk result (refusal book.old.program book.old.settings book.old.ledger entry ≡ None) }
    ensures entered { OnOk result (book.new ≡ record book.old { ledger = after book.old.program book.old.settings book.old.ledger entry }) }
    ensures counts { IfOk result (λ sums. sums ≡ totals_joined totals (entry_totals book.old.program book.old.settings book.old.ledger entry)) }
    ensures fails { IfErr result (Reports (refusal book.old.program book.old.settings book.old.ledger entry)) }
{
    let kind = entry.kind();
    let before = cleared_words(book, kind);
    book.apply(entry)?;
    let lost = before.saturating_sub(cleared_words(book, kind));
    Ok(totals.join(Totals::counted(kind, lost, book.in_use())))
}

// Applies the entries of a journal to the accounts of a run before its first entry, and adds up what they count.
fn enter_all(book: &mut Book, journal: &[Entry]) -> Result<Totals, OrNoMemory<RefusedAt>>
    requires settings { AreSettings book.old.settings }
    requires first { book.old.ledger ≡ opening book.old.program book.old.settings }
    requires open { book.old.stopped ≡ false }
    ensures book { OnOk result (book.new ≡ record book.old { ledger = ledger_of book.old.program book.old.settings journal.now }) }
    ensures totals { IfOk result (λ t. t ≡ totals_from book.old.program book.old.settings (opening book.old.program book.old.settings) journal.now) }
    ensures legal { OnOk result (first_refused book.old.program book.old.settings journal.now ≡ None) }
    ensures fails { IfErr result (Reports (first_refused book.old.program book.old.settings journal.now)) }
{
    let mut totals = Totals::none();
    let mut index = 1;
    for entry in journal {
        match enter(book, totals, *entry) {
            Ok(sums) => {
                totals = sums;
                index += 1;
            }
            Err(OrNoMemory::Refused(cause)) => {
                return Err(OrNoMemory::Refused(RefusedAt { index, cause }));
            }
            Err(OrNoMemory::NoMemory) => return Err(OrNoMemory::NoMemory),
        }
    }
    Ok(totals)
}

/// The accounts of a legal journal, and the totals of its entries.
pub(crate) fn count<'p>(
    alloc: Global,
    program: &'p Program,
    settings: Settings,
    journal: &[Entry],
) -> Result<CountedJournal<'p>, OrNoMemory<RefusedAt>>
    ensures book { IfOk result (λ c. c.book ≡ record { program = program.entry.now; settings = settings; ledger = ledger_of program.entry.now settings journal.now; stopped = false }) }
    ensures totals { IfOk result (λ c. c.totals ≡ totals_from program.entry.now settings (opening program.entry.now settings) journal.now) }
    ensures legal { OnOk result (first_refused program.entry.now settings journal.now ≡ None) }
    ensures fails { IfErr result (Reports (first_refused program.entry.now settings journal.now)) }
{
    let mut book = Book::open(alloc, program, settings)?;
    let _workers = settings.workers();
    match enter_all(&mut book, journal) {
        Ok(totals) => Ok(CountedJournal { book, totals }),
        Err(error) => {
            drop(book);
            Err(error)
        }
    }
}

/// The report of accounts, with this number of entries and these totals.
pub(crate) fn report(book: &Book, turns: usize, totals: Totals) -> Report
    requires { book.now.stopped ≡ false }
    ensures { result ≡ report_from book.now.ledger turns totals }
{
    let held = book.held();
    Report {
        tasks: book.tasks() as u64,
        steps: book.steps(),
        turns: turns as u64,
        leaf: totals.leaf,
        putoff: totals.putoff,
        leaf_freed: totals.leaf_freed,
        inner: totals.inner,
        inner_freed: totals.inner_freed,
        chunks: book.in_use(),
        peak: totals.peak,
        held: held.objects,
        words: held.words,
    }
}
