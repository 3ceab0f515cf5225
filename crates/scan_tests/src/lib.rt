// Tests of the scan of a location, of the places of accesses, and of the races of runs. It has no code of its own but an
// order of strands.
#![tactic(auto)]

mod order;
#[cfg(test)]
mod places;
#[cfg(test)]
mod races;
#[cfg(test)]
mod verdicts;

pub use order::Order;
