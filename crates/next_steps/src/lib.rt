// What a task's next step allocates, the number of its object, and whether the step is the task's own.
#![tactic(auto)]

mod ahead;
mod objects;
mod private;

pub use ahead::{NextStep, next_step};
pub use objects::objects_of;
