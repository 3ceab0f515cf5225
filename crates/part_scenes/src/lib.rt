// Parts of roots for tests: programs from texts, the root's part of each, and where its private steps pause.
#![tactic(auto)]

mod parts;

pub use parts::{AMPLE, Pause, Setup, pause, pause_of, program_of, root_of};
