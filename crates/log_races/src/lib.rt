//! The races of a log, out of the pieces of its files.
#![tactic(auto)]

mod races;
mod strands;

pub use log_touches::{FoundRace, RaceScan, RacesError};
pub use races::log_races;
