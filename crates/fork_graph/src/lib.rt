// The graph of a fork-join run: tasks, the strands between their turns, and the edges that lead from strand to strand.
#![tactic(auto)]

mod children;
mod fault;
mod graph;
mod laws;
mod reached;
mod small;

pub use fault::{Extent, StrandCause, StrandFault, first_fault};
pub use graph::{GraphStrand, GraphTurn};
pub use laws::{completed_are_nested, sound_runs_have_no_fault};
pub use small::are_small;
