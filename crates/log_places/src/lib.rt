//! The places of a log's accesses: stretches of locations that each access touches whole or not at all.
#![tactic(auto)]

mod laws;
mod links;
mod numbers;
mod page;
mod places;
mod region;
mod stretch;

pub use laws::{marked_are_there, numbers_are_distinct, slots_are_one, stretches_are_whole};
pub use numbers::{LocationSlot, NumberError, Numbers};
pub use page::PageKey;
pub use places::Places;
pub use region::Region;
pub use stretch::Stretch;
