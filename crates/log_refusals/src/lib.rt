// Why a log is refused, in words, and at which line.
#![tactic(auto)]

mod causes;
mod laws;
mod search;
mod texts;

pub use laws::events_have_lines;
pub use search::last_line;
pub use texts::{line_refusal, task_refusal};
