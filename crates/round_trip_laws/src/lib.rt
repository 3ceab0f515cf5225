// A program's text followed by a trace of its run is read as that program and that trace.
#![tactic(auto)]

mod laws;

pub use laws::{inputs_are_read, recorded_inputs_are_read};
