// The page that shows a run, but for the data of the run: HTML, CSS and a script.
#![tactic(auto)]

mod text;

pub use text::{add_after, add_before};
