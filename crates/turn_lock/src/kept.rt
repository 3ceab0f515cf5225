//! What a value in turns shows of itself.
ghost use Rattle.std.specs.Prelude.{◌≡◌, ℕ, List, length};

/// A value with a journal, each entry of which belongs to one worker.
pub trait Kept {
    /// One entry of the journal.
    type Entry;

    /// What a worker keeps outside the turn.
    type Part;

    /// What no entry changes.
    type Setup;

    ghost journal: { Self → List Self.Entry };

    ghost worker_of: { Self.Entry → ℕ };

    // The part that this worker keeps fits the value.
    ghost fits: { Self → ℕ → Self.Part → Type 0 };

    ghost setup: { Self → Self.Setup };

    /// The length of the journal, which the value stores.
    fn entries(&self) -> u64
        ensures { result ≡ length (journal self.now) };
}
