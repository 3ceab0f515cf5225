// What stands in a page around its run: the page's own text, its title and the program's lines.
#![tactic(auto)]

mod frame;
mod program;

pub use frame::{add_head, add_tail};
pub use trace_input::{OrNoMemory, TraceInput, read_trace_input};
