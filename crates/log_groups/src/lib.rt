// Findings gathered by what is told of them: their block, and the kinds and sites of their lines.
#![tactic(auto)]

mod gather;
mod item;
mod laws;

pub use gather::group_items;
pub use item::{Group, GroupKey, Item};
pub use laws::groups_are_exact;
