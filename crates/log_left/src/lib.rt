// How many strands of a log are left out of its graph.
#![tactic(auto)]

mod left;

pub use fork_graph::Extent;
pub use left::left_out;
pub use log_pieces::LogPiece;
pub use log_tasks::LogTasks;
