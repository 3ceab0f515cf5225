// What one run of a program says about all its schedules: the pairs that the graph leaves unordered, or that every
// schedule has the same result.
#![tactic(auto)]

mod data;
mod laws;
mod report;
mod text;

pub use data::{Clashes, Verdict};
pub use laws::{agreeing_runs_speak_for_all, verdicts_are_exact};
pub use race_groups::{ShownRaces, shown_races};
pub use report::clashes_of_run;
pub use text::clashes_text;
