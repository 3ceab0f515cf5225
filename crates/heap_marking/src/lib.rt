// Marking and sweeping the heaps of waiting tasks, and the pace at which a worker owes it.
#![tactic(auto)]

mod causes;
mod forks;
mod pace;
mod starts;
mod sweep;

pub use causes::{marking_cause, waiting_cause, words_cause};
pub use core_invariant::{Child, EndedChild, ParkedTask, TaskSlot, TaskSlots, Work};
pub use forks::fork_in;
pub use pace::{Fork, Pace, PreviousKind, is_joined};
pub use starts::begin_marking;
pub use sweep::{drop_unmarked, forget_kept};
