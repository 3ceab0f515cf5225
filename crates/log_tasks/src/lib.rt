// The tasks of a log: how its strands end, the graph that they make, and the first task that is at fault.
#![tactic(auto)]

mod ending;
mod fault;
mod graph;
mod laws;
mod numbers;
mod rows;
mod tasks;
mod told;

pub use ending::StrandEnd;
pub use fault::{TaskCause, TaskFault};
pub use laws::{file_order_is_nothing, files_may_change_places};
pub use log_pieces::{act_in, piece_lines, piece_text};
pub use numbers::each_once;
pub use tasks::{LogTasks, log_tasks};
