//! The determinacy races of a fork-join run: of which locations two accesses race.
#![tactic(auto)]

mod verdict;

pub use run_order::RunOrder;
pub use verdict::find_races;
