// The remembered set of a heap: the fields of other objects that point down into it.
#![tactic(auto)]

mod laws;
mod moved;
mod remembered;
mod table;

pub use remembered::{RefField, Remembered};
