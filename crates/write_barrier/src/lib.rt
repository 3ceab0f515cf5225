// The work at a write of a reference: what the heaps remember and keep for their collections.
#![tactic(auto)]

mod barrier;
mod holder;
mod noting;
mod sets;

pub use barrier::note_write;
pub use holder::HoldsSets;
pub use sets::{Noted, SetOf};
