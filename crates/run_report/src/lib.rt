// The result of a journal: its report, and what is written of its run.
#![tactic(auto)]

mod counting;
mod texts;
mod totals;
mod whole;

pub use counting::cleared_words;
pub use texts::{end_text, outputs_text, refused_text, report_text, trap_name};
pub use totals::Totals;
pub use whole::{Extras, WholeRun, whole_run};
