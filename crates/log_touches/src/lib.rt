//! The accesses of a log, out of the pieces of its files.
#![tactic(auto)]

mod access;
mod mark;
mod numbers;
mod pieces;
mod scan;

pub use access::ActAccess;
pub use log_places::Numbers;
pub use mark::mark_pieces;
pub use numbers::RacesError;
pub use pieces::StrandPieces;
pub use race_scan::{FoundRace, RaceScan, Strands};
pub use scan::touch_strand;
