// The frames of a task: their registers, functions and next instructions.
#![tactic(auto)]

mod frames;

pub use frames::{CallFrame, Frames, NotPushed};
