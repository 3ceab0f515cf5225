// The error of a read or a write outside.

ghost use Rattle.std.specs.Prelude.{◌≡◌};
ghost use Rattle.saturating_counts.specs.Counts.{raised_by};

/// A read or a write failed outside. The fault count of the source or sink that returns it has risen, or is saturated.
#[derive(Clone, Copy, PartialEq, Eq)]
pub struct Failed;

/// A count of faults plus one, saturating.
pub(crate) fn one_more(faults: u64) -> u64
    ensures { result ≡ raised_by faults 1 }
{
    faults.saturating_add(1)
}
