// Programs of any size, generated from a seed.
#![tactic(auto)]

mod draws;
mod text;
mod whole;

pub use whole::{SIZE_LIMIT, make};
