// The accounts of heaps, computed over plain data: sizes, allocations, joins, what is reachable within a heap, and what
// a leaf collection and a sweep leave.
#![tactic(auto)]

// What changes a heap's account.
mod collection;
mod joined;
mod placed;
mod sweeping;

// What is reachable within a heap.
mod names;
mod reachable;
mod search;

// Sizes and owners.
mod owners;
mod sizes;

pub use collection::{Collected, collect};
pub use joined::{fresh, join, merge};
pub use owners::are_owned;
pub use placed::{place, put_last};
pub use reachable::within;
pub use sizes::{CHUNK_WORDS, is_countable, take_of, units_in, words_at, words_in, words_sum};
pub use sweeping::{Swept, sweep};
