// A run as a log of a fork-join program: what its steps do to objects, task by task, in the format of logs.
#![tactic(auto)]

// What a step does, as an act of a log.
mod act;

// The lines of a run: those of its steps and entries, of the whole log, and the names of its sites.
mod lines;
mod log;
mod sites;
mod turn;

// How lines are written.
mod write;

pub use log::log_text;
pub use write::add_line;
