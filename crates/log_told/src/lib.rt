// What a report tells of the races and the uses that were found in a log: what their lines do, their sites, and where
// they stand.
#![tactic(auto)]

mod line;
mod lines;
mod table;
mod telling;

pub use telling::{ToldFindings, tell};
