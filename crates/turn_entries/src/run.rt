//! The shared value in turns.
ghost use Rattle.std.specs.Prelude.{◌≡◌, ◌<◌, ◌^◌, not, length};
ghost use Rattle.turn_entries.specs.Values.{worker_of, setup_of, is_over, FitsSnapshot};

use entry_calls::{Entry, EntryCalls, Private, Program, Settings};
use std::snapshot::Snapshot;
use turn_lock::Kept;

/// The shared value of a run by workers, whoever keeps it.
#[derive(Drop)]
pub struct Run<P> {
    pub paced: P,
}

/// What no entry changes. No value of this type exists.
pub struct Setup {
    pub program: Program,
    pub settings: Settings,
}

impl<P: EntryCalls> Kept for Run<P> {
    ghost use Rattle.turn_entries.specs.Values.{worker_of, journal_of, setup_of, FitsSnapshot};

    type Entry = Entry;

    // The plain contents of a part.
    type Part = Snapshot<Private>;

    type Setup = Setup;

    ghost journal = { journal_of P.value };

    ghost worker_of = { worker_of };

    ghost fits = { FitsSnapshot P.value };

    ghost setup = { setup_of P.value };

    fn entries(&self) -> u64 {
        self.paced.entries()
    }
}

impl<P: EntryCalls + Drop> Run<P> {
    /// Before the first entry.
    pub fn new(paced: P) -> Run<P>
        ensures { result ≡ record { paced = paced } }
    {
        Run { paced }
    }

    /// The journal is a list in memory, so its length fits.
    pub fn is_short(&self)
        ensures { length (P.value self.now.paced).journal.items < 2 ^ 63 }
    {
        self.paced.entries();
    }

    /// Whether entries may be made: the run hasn't ended, and no worker's allocation has failed.
    pub fn goes_on(&self) -> bool
        ensures { result ≡ not (is_over (P.value self.now.paced)) }
    {
        !self.paced.halted() && !self.paced.has_ended()
    }
}
