// Steps of a task that read and write objects of other tasks.
#![tactic(auto)]

mod other;
mod write_other;

pub use other::{OtherStep, named, step_on};
pub use write_other::{go_on, write_number, write_reference};
