// The totals of a journal's entries, updated after each.

ghost use Rattle.std.specs.Prelude.{◌≡◌, ◌-◌, ◌<◌, ◌^◌, IfOk, length};
ghost use Rattle.heap_reading.specs.below.run_trace.{EntryValue};
ghost use Rattle.run_report.specs.Totals.{cleared_words, totals_joined, no_totals, SumsFit};
ghost use Rattle.heap_reading.specs.below.core_invariant.{SharedValue, accounts, Enters};
ghost use Rattle.run_statistics.specs.JournalCounts.{IsMade, CountsJournal, begun_with};

use crate::held_words::words_held;
use heap_reading::{Entry, Kind, Listed};
use run_report::Totals;
use shared_tree::Shared;
use std::alloc::{AllocError, Global};

/// The record of a journal's entries.
pub(crate) struct JournalCounts {
    pub(crate) totals: Totals,
    /// For each worker, the words of the heap whose leaf collection it is in, as that began.
    pub(crate) begun: Listed<u64>,
}

impl Drop for JournalCounts {
    fn drop(self) {
        let JournalCounts {
            totals: _,
            begun: _,
        } = self;
    }
}

// A list of `count` zeros.
fn zeros(alloc: Global, count: u32) -> Result<Listed<u64>, AllocError>
    ensures { IfOk result (λ numbers. length numbers ≡ count) }
{
    Ok(Listed::from_vec(vec![in alloc; 0; count as usize]?))
}

// The entry that was made last.
fn last_entry(shared: &Shared) -> Entry
    requires { (w : SharedValue) × (e : EntryValue) × Enters w shared.now e }
    ensures last { (w : SharedValue) (e : EntryValue) → Enters w shared.now e → result ≡ e }
    ensures short { length shared.now.journal.items < 2 ^ 64 }
{
    let journal = shared.journal();
    journal[journal.len() - 1]
}

// If an entry begins a leaf collection, the words of its heap are recorded for its worker.
fn keep_begun(begun: &mut Listed<u64>, entry: Entry, words: u64)
    requires { entry.worker < length begun.old }
    ensures { begun.new ≡ begun_with begun.old entry.worker words entry.kind }
{
    if let Kind::Begin(_) = entry.kind() {
        begun.set(entry.worker() as usize, words);
    }
}

// Adds the counts of one more entry to the totals. If they are unchanged nothing is written, so that their cache line
// stays shared.
fn add(totals: &mut Totals, counted: Totals)
    requires { SumsFit (totals_joined totals.old counted) }
    ensures { totals.new ≡ totals_joined totals.old counted }
{
    let totals_joined = totals.join(counted);
    if totals_joined != *totals {
        *totals = totals_joined;
    }
}

impl JournalCounts {
    /// The record before the first entry of `workers` workers.
    pub(crate) fn none(alloc: Global, workers: u32) -> Result<JournalCounts, AllocError>
        ensures totals { IfOk result (λ c. c.totals ≡ no_totals) }
        ensures workers { IfOk result (λ c. length c.begun ≡ workers) }
    {
        Ok(JournalCounts {
            totals: Totals::none(),
            begun: zeros(alloc, workers)?,
        })
    }

    // The words that a heap has lost with the last entry; if that sweeps, its heap had `words` words.
    fn lost(&self, shared: &Shared, entry: Entry, words: u64) -> u64
        requires { (w : SharedValue) × IsMade w shared.now self.now entry words }
        ensures { (w : SharedValue) → IsMade w shared.now self.now entry words → result ≡ cleared_words (accounts w) entry.kind - cleared_words (accounts shared.now) entry.kind }
    {
        shared.stands();
        match entry.kind() {
            Kind::End(_, _, _, left) => {
                let before = *self.begun.at(entry.worker() as usize);
                before.saturating_sub(left as u64)
            }
            Kind::Sweep(task, _) => words.saturating_sub(words_held(shared, task)),
            _ => 0,
        }
    }

    /// Counts the last entry. If it begins a leaf collection or sweeps, its heap had `words` words.
    pub(crate) fn count(&mut self, shared: &Shared, words: u64)
        requires { (w : SharedValue) × (e : EntryValue) × IsMade w shared.now self.old e words }
        ensures { CountsJournal shared.now self.new }
    {
        shared.stands();
        let entry = last_entry(shared);
        let lost = self.lost(shared, entry, words);
        let used = shared.in_use() as u64;
        let counted = Totals::counted(entry.kind(), lost, used);
        add(&mut self.totals, counted);
        keep_begun(&mut self.begun, entry, words);
    }
}
