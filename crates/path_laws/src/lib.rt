// What tasks and objects name, in every run: it stays in the store, and its owner is on one path with the task or
// object that names it. So some reads are never stopped, and a step leaves what other tasks own unchanged.
#![tactic(auto)]

mod laws;

pub use hh_model::{End, MachineState, Name, Strand};
pub use laws::{frozen_reads_go, outputs_grow, own_reads_go, stops_name_owners};
