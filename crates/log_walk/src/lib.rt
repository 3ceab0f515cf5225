// The walk over a fork-join run in its serial order, and what precedes what in it, told by climbs.
#![tactic(auto)]

mod links;
mod order;
mod places;
mod tables;
mod walk;

pub use order::serial_order;
pub use walk::SerialWalk;
