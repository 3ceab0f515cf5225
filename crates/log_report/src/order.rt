// Races in the order of their locations.

ghost use Rattle.std.specs.Prelude.{◌≡◌};
ghost use Rattle.std.specs.List.Sorted.{IsPermutation, IsNonDecreasingBy};
ghost use Rattle.log_report.specs.Told.{first_place};

use crate::told::ToldRace;
use plain_vec::Listed;

// The place of a race's first location among those of all blocks.
fn first_place(race: &ToldRace) -> u128
    ensures { result ≡ first_place race.now }
{
    (race.block as u128) * (1 << 64) + race.start as u128
}

/// The races in ascending order of blocks and locations.
pub fn in_order(races: Listed<ToldRace>) -> Listed<ToldRace>
    ensures permutation { IsPermutation races result }
    ensures sorted { IsNonDecreasingBy first_place result }
{
    let mut sorted = races.into_vec();
    sorted.sort_unstable_by_key(|race| first_place(race));
    Listed::from_vec(sorted)
}
