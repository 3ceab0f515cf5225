// The tasks of a run as a table of comma-separated values: a line for each task.
#![tactic(auto)]

mod lines;
mod row;
mod rows;
mod table;

pub use row::{ForkOrigin, TaskRow};
pub use run_journal::{OrNoMemory, RefusedAt};
pub use run_timeline::timeline_text;
pub use table::table_text;
