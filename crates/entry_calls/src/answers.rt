//! The results of the calls.

use crate::part_block::PartInBlock;
use leaf_collections::{Moved, NotEntered, Refused};

/// The result for a task of a step that gives its part up.
#[derive(Drop)]
pub enum Ran {
    /// It waits for two children of these numbers, which are ready.
    Forked { left: u32, right: u32 },
    /// It has ended; if both children of its parent have, the parent goes on, and is ready.
    Ended { resumed: Option<u32> },
    /// Its step has ended the run: the task is before it, and the worker still holds the part.
    Over(PartInBlock),
    /// It is the root, and has returned: the run is done, and no worker holds a task.
    Done,
}

/// Why the steps of a part weren't committed with one that gives it up, and the part.
#[derive(Drop)]
pub struct NotLeft {
    pub cause: NotEntered,
    pub part: PartInBlock,
}

/// How a step gives a part up.
#[derive(Clone, Copy)]
pub enum Leaving {
    /// It forks.
    Forks,
    /// It is the last return of a task that isn't the root.
    Ends,
    /// It is the last return of the root.
    Finishes,
}

/// The result for a lent part of a step that isn't private.
#[derive(Clone, Copy)]
pub enum Lent {
    /// Its steps are committed, and its task goes on.
    Goes,
    /// Its steps are committed, and the last of them has ended the run: the task is before it.
    Over,
    /// Nothing is committed: its next step gives it up, in this way.
    Leaves(Leaving),
}

/// Why a leaf collection didn't end, and the result of copying.
#[derive(Drop)]
pub struct NotEnded {
    pub cause: Refused,
    pub moved: Moved,
}
