//! The races of all locations: each access scans the cells of the stretches that it touches.
#![tactic(auto)]

mod all;
mod cells;
mod laws;
mod scan;
mod slots;
mod touch;

pub use all::{number_all, scan_all};
pub use cells::FoundRace;
pub use laws::{releases_write_what_is_accessed, scans_are_exact};
pub use race_cells::{CellAccess, CellAccessKind, Strands};
pub use scan::RaceScan;
pub use touch::Touch;
