// What each entry of a journal changes: the deltas of a run, from which its tasks, objects and outputs follow.
#![tactic(auto)]

// The plain data of deltas.
mod data;

// What a step does to an object, what the steps of an entry change, which tasks they move, and what tasks hold.
mod deed;
mod roots;
mod steps;
mod tasks;

// What an entry changes.
mod delta;

pub use data::{
    Change, Changes, Deed, Delta, NewObject, NewTask, Standing, StepAct, StepDeed, TaskNow, Value,
    Write,
};
pub use deed::step_deed;
pub use delta::{advance, start_tasks, tasks_made};
pub use steps::take;
