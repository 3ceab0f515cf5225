//! What a worker holds between its turns.
ghost use Rattle.std.specs.Prelude.{◌≡◌};
ghost use Rattle.turn_entries.specs.Next.{is_out_of_memory};

use entry_calls::{Addr, BoxedSlot, Moved, PartInBlock, Paused, Private, ToChunks};
use std::snapshot::Snapshot;

/// What a leaf collection takes along: the roots, and the new chunks with all that copying needs.
#[derive(Drop)]
pub struct CollectionLists {
    pub roots: Vec<Addr>,
    pub to_chunks: ToChunks,
    /// A block for the result of copying.
    pub block: BoxedSlot<Moved>,
}

/// A part whose leaf collection has begun, with what that takes along.
#[derive(Drop)]
pub struct Collecting {
    pub part: PartInBlock,
    pub lists: BoxedSlot<CollectionLists>,
}

/// A part whose heap was copied, with the result of copying.
#[derive(Drop)]
pub struct Copied {
    pub part: PartInBlock,
    pub moved: BoxedSlot<Moved>,
    /// The part as it was when its collection had begun.
    pub begun: Snapshot<Private>,
}

/// What a worker brings to its turn.
#[derive(Drop)]
pub enum Ready {
    /// A part, and why its steps paused.
    Paused(PartInBlock, Paused),
    /// A part whose collection may end.
    Copied(Copied),
    /// A task that it has found, or none.
    Found(Option<u32>),
    /// Nothing: an allocation failed.
    OutOfMemory,
}

impl Ready {
    /// Whether it comes because an allocation has failed.
    pub(crate) fn is_out_of_memory(&self) -> bool
        ensures { result ≡ is_out_of_memory self.now }
    {
        match self {
            Ready::OutOfMemory => true,
            _ => false,
        }
    }
}

/// How a worker goes on after its turn.
#[derive(Drop)]
pub enum Next {
    /// It takes steps of this part.
    Running(PartInBlock),
    /// It copies the heap of this part.
    Collecting(Collecting),
    /// It ends the collection of this part.
    Copied(Copied),
    /// It takes this task, which it has found.
    Found(u32),
    /// It puts the right one of these tasks on its deque, and takes the left one.
    Forked { left: u32, right: u32 },
    /// It takes this task, which runs again.
    Resumed(u32),
    /// It looks for a task.
    Idle,
    /// It has found none, and waits until there may be one.
    Waits,
    /// It makes no more entries.
    Stop,
}
