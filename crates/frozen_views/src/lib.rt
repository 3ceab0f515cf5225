// The pieces of chunks, cached as long as they show what their chunks hold.
#![tactic(auto)]

mod layer;
mod pieces;

pub use layer::{Layer, piece_of};
pub use pieces::Pieces;
