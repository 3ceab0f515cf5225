// The numbers of chunks: which are in use, who owns each, and how many units they have in total.
#![tactic(auto)]

mod numbers;
mod pool;

pub use pool::{NotTaken, Pool, Slot};
