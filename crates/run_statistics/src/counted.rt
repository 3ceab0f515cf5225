// The shared value and the totals of its journal.

ghost use Rattle.std.specs.Prelude.{◌≡◌, true};
ghost use Rattle.heap_reading.specs.below.run_ledger.{report_of};
ghost use Rattle.heap_reading.specs.below.core_invariant.{EachPartStillFits, without_journal};

use crate::counting::JournalCounts;
use crate::held_words::held;
use heap_reading::{Entry, Listed, Report};
use shared_tree::{Remains, Shared};
use std::marker::Model;

/// The shared value, and the totals of its journal's entries: it makes the report without reading them again.
pub struct Counted {
    pub(crate) shared: Shared,
    pub(crate) counts: JournalCounts,
}

impl Drop for Counted {
    fn drop(self) {
        let Counted {
            shared: _,
            counts: _,
        } = self;
    }
}

impl Model for Counted {
    ghost use Rattle.heap_reading.specs.below.core_invariant.{SharedValue};
    ghost use Rattle.run_statistics.specs.JournalCounts.{CountsJournal};

    ghost Value = { SharedValue };

    ghost view = { λ c. c.shared };

    ghost invariant = { λ c. CountsJournal c.shared c.counts };
}

impl Counted {
    /// Makes no more entries: an allocation of some worker has failed. No other call depends on it, and none
    /// changes it.
    pub fn halt(&mut self)
        ensures same { self.new ≡ record self.old { halted = true } }
        ensures fits { EachPartStillFits self.old self.new }
    {
        self.shared.halt();
    }

    /// The shared value, to be read.
    pub fn shared(&self) -> &Shared
        ensures { result.now ≡ self.now }
    {
        &self.shared
    }

    /// The report of the journal.
    pub fn report(&self) -> Report
        ensures { result ≡ report_of self.now.program self.now.settings self.now.journal.items }
    {
        let shared = &self.shared;
        let totals = self.counts.totals;
        let held = held(shared);
        Report {
            tasks: shared.tasks() as u64,
            steps: shared.steps(),
            turns: shared.journal().len() as u64,
            leaf: totals.leaf,
            putoff: totals.putoff,
            leaf_freed: totals.leaf_freed,
            inner: totals.inner,
            inner_freed: totals.inner_freed,
            chunks: shared.in_use() as u64,
            peak: totals.peak,
            held: held.0,
            words: held.1,
        }
    }

    /// Takes the journal out: no entry can be made after it.
    pub fn take_journal(self) -> (Listed<Entry>, Remains)
        ensures journal { result.0 ≡ self.journal.items }
        ensures rest { result.1 ≡ without_journal self }
    {
        let Counted { shared, counts: _ } = self;
        shared.take_journal()
    }
}
