//! A value that workers take in turns. A word beside it counts the entries of the value's journal, and is odd while
//! the turn is held.
#![tactic(auto)]

mod kept;
mod steps;
mod turn;
mod view;

pub use kept::Kept;
pub use steps::{Rule, Seat, ViewOf};
pub use turn::Turn;
pub use view::SeatView;
