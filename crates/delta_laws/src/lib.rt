// What follows from the deltas of a journal.
#![tactic(auto)]

mod laws;

pub use laws::{deltas_give_holdings, deltas_give_objects, deltas_give_roots, deltas_give_tasks};
