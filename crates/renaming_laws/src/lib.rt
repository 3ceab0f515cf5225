// The machine with its tasks renumbered: what a renaming of tasks is, and that a run of renamed tasks is the renamed
// run.
#![tactic(auto)]

mod laws;

pub use laws::{places_are_names, runs_are_carried};
