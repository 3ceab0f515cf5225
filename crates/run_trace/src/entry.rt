// The entries of a run's journal.

ghost use Rattle.std.specs.Prelude.{◌≡◌, ◌<◌};
ghost use Rattle.run_trace.specs.Entry.{IsKind};
ghost use Rattle.run_trace.specs.Settings.{worker_limit};

use std::marker::Model;

/// The most private steps of one entry, which may have one more step after them.
pub const PRIVATE_LIMIT: u32 = 256;

/// The most objects that one entry marks.
pub const MARK_LIMIT: u32 = 1024;

/// The kind of an entry. Tasks are named by their numbers.
#[derive(Clone, Copy, PartialEq, Eq)]
pub enum Kind {
    /// The worker takes the task, which is ready.
    Took(u32),
    /// The task took these steps, 1 to `PRIVATE_LIMIT + 1`; all but the last are private.
    Ran(u32, u32),
    /// The task's next step needs more words than it has room for: it gets one more chunk, or the run ends without
    /// chunks.
    Chunk(u32),
    /// The task's leaf collection begins.
    Begin(u32),
    /// It ends: new chunks kept, chunks released, words held.
    End(u32, u32, u32, u32),
    /// A leaf collection that is due is put off because there aren't enough chunks.
    PutOff(u32),
    /// The marking of the waiting task's heap begins.
    Mark(u32),
    /// At most this many more objects are marked, 1 to `MARK_LIMIT`.
    More(u32, u32),
    /// What wasn't marked is dropped: chunks released.
    Sweep(u32, u32),
    /// The run ends because its fuel is used up.
    Fuel,
}

/// One atomic step of a run, and its worker, whose number is below `WORKER_LIMIT`.
#[derive(Clone, Copy, PartialEq, Eq)]
pub struct Entry {
    worker: u32,
    kind: Kind,
}

impl Model for Entry {
    ghost use Rattle.run_trace.specs.Entry.{EntryValue, IsEntry};

    ghost Value = { EntryValue };

    ghost view = { λ e. record { worker = e.worker; kind = e.kind } };

    ghost invariant = { λ e. IsEntry (record { worker = e.worker; kind = e.kind }) };

    ghost inverse = { λ v. record { worker = v.worker; kind = v.kind } };
}

impl Entry {
    pub fn new(worker: u32, kind: Kind) -> Entry
        requires worker { worker < worker_limit }
        requires kind { IsKind kind }
        ensures { result ≡ record { worker = worker; kind = kind } }
    {
        Entry { worker, kind }
    }

    /// The number of the worker.
    pub fn worker(self) -> u32
        ensures value { result ≡ self.worker }
        ensures below { result < worker_limit }
    {
        self.worker
    }

    /// Its kind, with the numbers in range.
    pub fn kind(self) -> Kind
        ensures value { result ≡ self.kind }
        ensures range { IsKind result }
    {
        self.kind
    }
}
