// The parked state of a task that no worker holds.

use leaf_heap::{LeafHeap, View};
use object_layout::Addr;
use task_frames::Frames;

/// The frames of a task that no worker holds, or its result.
#[derive(Drop)]
pub enum Work {
    /// The frames of a task that is ready or waits.
    Calls(Frames),
    /// The last `i0` and `r0` of a task that has ended.
    Result(i64, Option<Addr>),
}

/// A task that no worker holds.
#[derive(Drop)]
pub struct ParkedTask {
    pub work: Work,
    pub heap: LeafHeap,
    /// What it sees of its ancestors' heaps.
    pub view: View,
    /// How many objects it has allocated.
    pub allocations: u32,
}
