// The tree of tasks, one heap to each: states, parents, depths, and paths to the root.
#![tactic(auto)]

mod entries;
mod links;
mod state;
mod tree;

pub use jump_pointers::LinkCount;
pub use state::TaskState;
pub use tree::Tree;
