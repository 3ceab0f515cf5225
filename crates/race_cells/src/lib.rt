//! The scan of one location: of all its accesses, in a serial order, the first that races with an earlier one.
#![tactic(auto)]

mod access;
mod cell;
mod laws;
mod order;
mod stack;
mod stacks;

pub use access::{CellAccess, CellAccessKind, CellEntry, CellRace};
pub use cell::Cell;
pub use laws::{own_accesses_never_race, scan_is_exact, scans_go_on, stacks_are_low};
pub use order::Strands;
