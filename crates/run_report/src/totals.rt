// The totals of a journal, added up entry by entry.

ghost use Rattle.std.specs.Prelude.{◌≡◌};
ghost use Rattle.run_report.specs.Totals.{SumsFit, no_totals, totals_joined, counted};

use run_trace::Kind;

/// The totals of a journal's entries, in numbers.
#[derive(Clone, Copy, PartialEq, Eq)]
pub struct Totals {
    /// The leaf collections that ended.
    pub leaf: u64,
    /// Those that were put off.
    pub putoff: u64,
    /// The words that leaf collections dropped.
    pub leaf_freed: u64,
    /// The sweeps.
    pub inner: u64,
    /// The words that sweeps dropped.
    pub inner_freed: u64,
    /// The most chunks in use after any entry.
    pub peak: u64,
}

impl Totals {
    /// The totals of no entry.
    pub fn none() -> Totals
        ensures { result ≡ no_totals }
    {
        Totals {
            leaf: 0,
            putoff: 0,
            leaf_freed: 0,
            inner: 0,
            inner_freed: 0,
            peak: 0,
        }
    }

    /// What an entry counts that made the heap lose this many words, with this many chunks in use after it.
    pub fn counted(kind: Kind, lost: u64, used: u64) -> Totals
        ensures { result ≡ counted kind lost used }
    {
        let mut totals = Totals::none();
        totals.peak = used;
        match kind {
            Kind::End(_, _, _, _) => {
                totals.leaf = 1;
                totals.leaf_freed = lost;
            }
            Kind::PutOff(_) => totals.putoff = 1,
            Kind::Sweep(_, _) => {
                totals.inner = 1;
                totals.inner_freed = lost;
            }
            _ => {}
        }
        totals
    }

    /// The totals of two parts of a journal together.
    pub fn join(self, other: Totals) -> Totals
        requires { SumsFit (totals_joined self other) }
        ensures { result ≡ totals_joined self other }
    {
        Totals {
            leaf: self.leaf + other.leaf,
            putoff: self.putoff + other.putoff,
            leaf_freed: self.leaf_freed + other.leaf_freed,
            inner: self.inner + other.inner,
            inner_freed: self.inner_freed + other.inner_freed,
            peak: self.peak.max(other.peak),
        }
    }
}
