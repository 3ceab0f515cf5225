// Why the command-line arguments or the input are refused, and the line that says so: the same in both programs.
#![tactic(auto)]

mod refusal;
mod text;

pub use program_reader::{TextFault, read_program};
pub use refusal::Refusal;
pub use run_report::{Extras, end_text, outputs_text, report_text, whole_run};
pub use text::refusal_text;
pub use trace_input::{OrNoMemory, TOO_LONG, TraceInput, read_trace_input};
