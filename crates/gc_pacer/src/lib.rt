// The shared value whose journal is paced: no entry is made but what its worker owes.
#![tactic(auto)]

mod calls;
mod forks_of;
mod noting;
mod owing;
mod paced;

pub use paced::Paced;
