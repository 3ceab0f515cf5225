// The text of JSON values, which specs/ defines; here a text is written piece by piece.
#![tactic(auto)]

mod laws;
mod write;

pub use laws::{arrays_are_joined, members_are_joined, values_balance};
pub use write::{add_number, add_word, first_number, first_word, more_number, more_word};
