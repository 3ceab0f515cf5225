// A run as one page that people step through: the page's own text with the data of the run in it.
#![tactic(auto)]

mod page;

pub use hh_lang::Program;
pub use page::page_of;
pub use page_frame::{OrNoMemory, TraceInput, read_trace_input};
pub use run_trace::{Entry, Settings};
