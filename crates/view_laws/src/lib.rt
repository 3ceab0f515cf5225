// What tasks see of their ancestors' heaps doesn't change.
#![tactic(auto)]

mod laws;

pub use laws::{frozen_stay, reads_stay, seen_names_are_held};
