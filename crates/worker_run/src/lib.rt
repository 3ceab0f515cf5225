//! Workers in threads, which run a program: each takes the turn of the shared value for one entry at a time, and takes
//! steps and copies heaps outside it.
#![tactic(auto)]

// The workers in threads.
mod workers;
mod working;

// What a worker does: in a turn, outside of it, and to find a task.
mod local;
mod tasks;
mod turn;

// What the workers share.
mod parking;
mod run_context;
mod signals;
mod worker_state;

pub use local::{copy_part, run_part};
pub use parking::Parker;
pub use run_context::RunContext;
pub use signals::Signals;
pub use turn::take_turn;
pub use turn_entries::{
    BlockSource, Collecting, Copied, EntryCalls, Next, Ready, Run, Setup, Turn, TurnOutcome,
};
pub use worker_state::WorkerState;
pub use workers::{all_work, close, opened, run_on_workers};
pub use working::{prepare, work};
