// The words that are held, kept from entry to entry.

ghost use Rattle.std.specs.Prelude.{◌≡◌, ◌+◌, ◌-◌, false, IfSome};
ghost use Rattle.run_report.specs.Totals.{cleared_words};
ghost use Rattle.run_timeline.specs.Words.{objects_made, words_made, objects_by, words_by};

use ledger_heaps::words_at;
use run_journal::{Book, Kind, MachineState, Name};
use run_report::cleared_words;

/// Counts of accounts.
#[derive(Clone, Copy)]
pub struct AccountCounts {
    /// The tasks made.
    pub tasks: u64,
    /// The chunks in use, in units.
    pub chunks: u64,
    /// The words held.
    pub words: u64,
}

// How many objects a task has made.
fn objects_made(state: &MachineState, task: u32) -> usize
    ensures { result ≡ objects_made state.now task }
{
    match state.store.get(task as usize) {
        None => 0,
        Some(row) => row.len(),
    }
}

/// For an entry of steps how many objects its task has made, and 0 for another entry.
pub(crate) fn objects_by(state: &MachineState, kind: Kind) -> usize
    ensures { result ≡ objects_by kind state.now }
{
    match kind {
        Kind::Ran(task, _) => objects_made(state, task),
        _ => 0,
    }
}

// The words of `count` objects of a task from object `first` on; None on overflow.
fn words_made(state: &MachineState, task: u32, first: usize, count: usize) -> Option<u64>
    ensures { IfSome result (λ words. words ≡ words_made state.now task first count) }
{
    let mut words: u64 = 0;
    for k in 0..count {
        let at = first.checked_add(k)?;
        let Ok(count) = u32::try_from(at) else {
            return None;
        };
        words = words.checked_add(words_at(state, Name { task, count }) as u64)?;
    }
    Some(words)
}

// The words of the objects that an entry's steps made, after the first `first` of its task; None on overflow.
fn words_by(state: &MachineState, kind: Kind, first: usize) -> Option<u64>
    ensures { IfSome result (λ words. words ≡ words_by kind first state.now) }
{
    match kind {
        Kind::Ran(task, _) => {
            let made = objects_made(state, task);
            words_made(state, task, first, made.saturating_sub(first))
        }
        _ => Some(0),
    }
}

// The words held, with `more` added and then `lost` taken away; None on overflow.
fn words_after(held: u64, more: u64, lost: u64) -> Option<u64>
    ensures { IfSome result (λ words. words ≡ held + more - lost) }
{
    let sum = held.checked_add(more)?;
    Some(sum.saturating_sub(lost))
}

/// The words held after an entry that was entered; None on overflow. Before it `held` words were held, `cleared` of them
/// by its task's heap, and its task had made `objects` objects.
pub(crate) fn words_behind(
    book: &Book,
    kind: Kind,
    held: u64,
    cleared: u64,
    objects: usize,
) -> Option<u64>
    requires { book.now.stopped ≡ false }
    ensures { IfSome result (λ words. words ≡ held + words_by kind objects book.now.ledger.machine - (cleared - cleared_words book.now.ledger kind)) }
{
    let lost = cleared.saturating_sub(cleared_words(book, kind));
    let more = words_by(book.state(), kind, objects)?;
    words_after(held, more, lost)
}
