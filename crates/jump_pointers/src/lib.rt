// Far links up a forest, along which an ancestor at any depth is found in O(log depth) steps.
#![tactic(auto)]

mod count;
mod laws;
mod links;
mod list;

pub use count::LinkCount;
pub use laws::{climbs_are_short, links_go_on};
pub use links::{FarLinks, Link, climb, climb_to, far_below};
pub use list::link_below;
