// The pieces of a log's strands: which bytes of which file say what a strand does, and which line is the first that is
// at fault.
#![tactic(auto)]

mod claims;
mod files;
mod log;
mod piece;
mod text;
mod walk;

pub use log::{CutLog, cut_log};
pub use or_no_memory::OrNoMemory;
pub use piece::LogPiece;
pub use strand_hasher::StrandHasher;
pub use text::{act_in, piece_lines, piece_text};
