//! What a worker does under the turn: with the shared value in hand it makes at most one entry: the one that the pace
//! demands, one for which a part paused, or one that takes a task.
#![tactic(auto)]

mod act;
mod between_turns;
mod first;
mod leaf;
mod pay;
mod run;
mod steps;

pub use act::TurnOutcome;
pub use between_turns::{Collecting, CollectionLists, Copied, Next, Ready};
pub use entry_calls::{
    BlockSource, EntryCalls, PRIVATE_LIMIT, PartBlock, PartInBlock, Paused, Private, Program,
    RunEnd, Settings, copy, run_local,
};
pub use run::{Run, Setup};
pub use turn_lock::{Seat, Turn};
