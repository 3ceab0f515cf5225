// What a log of a fork-join program says as a whole: the acts of its strands, in their order, and its first fault.
#![tactic(auto)]

mod fault;

pub use fault::{LocatedFault, LogFault, LogPosition};
