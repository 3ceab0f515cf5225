// How much the strands of a fork-join run weigh together, and how much its longest ways weigh.
#![tactic(auto)]

mod reach;
mod work;

pub use reach::{reaches_of, span_of};
pub use work::total_work;
