// The copying collector of a heap that one task owns. What is read in a collected heap is stated by the laws of
// `collected_heap_laws`.
#![tactic(auto)]

// A whole collection: its arguments, state and result, and what it needs.
mod collection;
mod collector;
mod laws;
mod lists;
mod near;

// Survivors are found, and memory for them reserved.
mod discovery;
mod reserving;

// Survivors are copied in order, references to them are updated, and the chunks are exchanged.
mod copying;
mod evacuation;
mod exchange;
mod packed;
mod redirect;
mod sorting;

pub use collection::copy;
pub use laws::needs_are_counted;
pub use lists::{Moved, Survivor, ToChunks};
