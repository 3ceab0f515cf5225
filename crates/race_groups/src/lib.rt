// The races of a run by pairs of lines, and what is shown of them.
#![tactic(auto)]

// The groups, and laws on them.
mod group;
mod groups;
mod laws;

// What is shown.
mod shown;
mod source;
mod swaps;
mod text;

pub use group::RaceGroup;
pub use groups::group_races;
pub use laws::groups_are_exact;
pub use shown::{ShownRaces, shown_races};
pub use swaps::has_swaps;
pub use text::groups_text;
