// What kinds of entries and functions are called, and the numbers of lines.
#![tactic(auto)]

mod names;

pub use names::{function_name, kind_name, line_number};
