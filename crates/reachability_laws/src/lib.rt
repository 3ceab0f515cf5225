// What collections keep, in terms of reachability.
#![tactic(auto)]

mod laws;

pub use laws::{leaf_collections_keep_reached, sweeps_keep_reached};
