// What a manager of hierarchical heaps would meet on a log's run: words by depth, and down-pointers.
#![tactic(auto)]

mod acts;
mod births;
mod error;
mod heaps;
mod homes;
mod rows;
mod shared;
mod tally;

pub use births::BlockBirth;
pub use error::HeapsError;
pub use heaps::log_heaps;
pub use log_walk::SerialWalk;
