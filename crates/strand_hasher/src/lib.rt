//! A hasher for tables by strand.
#![tactic(auto)]

mod hasher;
mod laws;

pub use hasher::StrandHasher;
pub use laws::near_strands_share_groups;
