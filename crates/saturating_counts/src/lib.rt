// Saturating counts of 64 bits.
#![tactic(auto)]

ghost use Rattle.std.specs.Prelude.{◌≡◌};
ghost use Rattle.saturating_counts.specs.Counts.{raised_by};

/// A count raised by a number, saturating.
pub fn raised_by(count: u64, more: u64) -> u64
    ensures { result ≡ raised_by count more }
{
    count.saturating_add(more)
}
