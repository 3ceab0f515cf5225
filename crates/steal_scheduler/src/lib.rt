//! Deques of task numbers for workers: each worker puts and takes at the back of its own, and steals at the front of
//! the others'.
#![tactic(auto)]

mod hand;
mod new;
mod own_deque;
mod rule;
mod theft;
mod victim_deque;
mod view;

pub use hand::Hand;
pub use new::Deques;
pub use own_deque::OwnDeque;
pub use rule::Deals;
pub use theft::Theft;
pub use victim_deque::VictimDeque;
pub use view::PassView;
