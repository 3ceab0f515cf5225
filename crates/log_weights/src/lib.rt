// How much the strands of a log weigh, and the work and the span of its run.
#![tactic(auto)]

mod cost;
mod sums;
mod units;
mod weights;

pub use cost::{Cost, CostError, work_and_span};
pub use weights::log_weights;
