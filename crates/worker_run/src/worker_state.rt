//! The states of the workers.

use crate::signals::Signals;
use std::alloc::Global;
use steal_scheduler::Hand;
use turn_entries::{EntryCalls, Run, Seat, Settings};

/// A worker's state in a run: its seat at the turn and its hand at the deques.
#[derive(Drop)]
pub struct WorkerState<P: EntryCalls> {
    pub seat: Seat<Run<P>>,
    pub hand: Hand,
    pub worker: u32,
    /// The allocator for the blocks of its parts, and of the new chunks of their collections.
    pub alloc: Global,
    pub settings: Settings,
    /// How many entries it gave back.
    pub given: u64,
    pub signals: Signals,
    /// Padding: it keeps the counts of two workers from sharing a cache line.
    pub apart: [u64; 16],
}
