// What a call of the program that checks logs asks for.
#![tactic(auto)]

mod options;
mod view;
mod words;

pub use view::{LogView, ReportForm};
pub use words::{is_usage, read_request};
