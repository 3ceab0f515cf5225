// Child tasks: how forks, ends and joins change the shared value.
#![tactic(auto)]

mod first;
mod fork;
mod join;

pub use first::{first_task_slots, none_out};
pub use fork::{ForkBlocks, fork_task_slots, grow};
pub use join::{in_order, is_ended, join_children, make_places, other_child, own_child};
pub use step_commit::{at_end, parts_fit_again};
