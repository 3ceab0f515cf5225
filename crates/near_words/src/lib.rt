// The nearest of some words to an unknown one, by edit distance.
#![tactic(auto)]

mod near;

pub use near::nearest;
