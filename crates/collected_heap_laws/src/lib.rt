// What is read in a collected heap: objects, old addresses, the chunks that are kept.
#![tactic(auto)]

mod laws;

pub use laws::{moved_are_read, moves_are_told, no_chunk_is_lost};
