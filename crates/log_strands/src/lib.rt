// What the pieces of a log say, act after act, and where their strands stand in the serial order.
#![tactic(auto)]

mod acts;
mod acts_by;
mod few;
mod places;

pub use acts::{count_acts, next_act};
pub use acts_by::next_act_by;
pub use few::has_few_acts;
pub use log_lines::Act;
pub use places::{is_known, piece_places, strand_in_log};
