// Inputs of a program and a trace of its run: the program's text, and the trace from the first line on whose first word
// is `trace`.
#![tactic(auto)]

mod cut;
mod input;
mod newer;

pub use cut::begins_trace;
pub use input::{InputFault, TOO_LONG, TraceInput, read_trace_input};
pub use or_no_memory::OrNoMemory;
