// What both collectors keep, in terms of birth names: walks over the addresses of a heap as walks over the names of its
// objects.
#![tactic(auto)]

mod laws;

pub use laws::{snapshot_is_named, survivors_are_named};
