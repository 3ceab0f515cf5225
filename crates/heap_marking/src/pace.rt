// The record of a worker's own entries that the pace of inner collections needs.

ghost use Rattle.std.specs.Prelude.{◌≡◌, ◌∷◌, ◌++◌, ◌<◌, ◌-◌, [], OnOk};
ghost use Rattle.heap_marking.specs.Pace.{is_state_joined, previous_of};
ghost use Rattle.core_invariant.specs.below.plain_vec.{option_is};

use core_invariant::{ReservedVec, TaskState};
use std::alloc::{AllocError, Global};

/// A fork: the task that forked, and a child of it: the left one, if its number is known.
#[derive(Clone, Copy)]
pub struct Fork {
    pub task: u32,
    pub left: u32,
}

/// The record of a worker's previous entry that the pace needs.
#[derive(Clone, Copy)]
pub enum PreviousKind {
    /// None, or an entry without steps.
    Other,
    /// Steps that didn't fork.
    Ran,
    /// Steps that ended with this fork.
    Forked(Fork),
}

/// The record of a worker's own entries that the pace needs.
#[derive(Drop)]
pub struct Pace {
    pub previous: PreviousKind,
    /// The forks after which the worker began to mark the heap of the waiting task, the last one at the end.
    pub marks: ReservedVec<Fork>,
}

impl Pace {
    /// The record of a worker without an entry.
    pub fn new(alloc: Global) -> Pace
        ensures previous { result.previous ≡ PreviousKind.Other }
        ensures marks { result.marks.items ≡ [] }
    {
        Pace {
            previous: PreviousKind::Other,
            marks: ReservedVec::new(alloc),
        }
    }

    /// Reserves capacity for one more marking.
    pub fn reserve(&mut self) -> Result<(), AllocError>
        ensures previous { self.new.previous ≡ self.old.previous }
        ensures items { self.new.marks.items ≡ self.old.marks.items }
        ensures room { OnOk result (0 < self.new.marks.room) }
    {
        self.marks.reserve(1)
    }

    /// Records steps, which ended with this fork if they ended with one. Unchanged values aren't written, so that their
    /// cache line stays shared.
    pub fn after_steps(&mut self, fork: Option<Fork>)
        ensures { self.new ≡ record self.old { previous = previous_of fork } }
    {
        match (fork, self.previous) {
            (Some(fork), _) => self.previous = PreviousKind::Forked(fork),
            (None, PreviousKind::Ran) => {}
            (None, _) => self.previous = PreviousKind::Ran,
        }
    }

    /// Records that the marking of a heap has begun whose task waits on this fork.
    pub fn after_mark(&mut self, fork: Fork)
        requires { 0 < self.old.marks.room }
        ensures { self.new ≡ record { previous = PreviousKind.Other; marks = record { items = self.old.marks.items ++ fork ∷ []; room = self.old.marks.room - 1 } } }
    {
        self.previous = PreviousKind::Other;
        self.marks.push_reserved(fork);
    }

    /// Records any other entry.
    pub fn after_other(&mut self)
        ensures { self.new ≡ record self.old { previous = PreviousKind.Other } }
    {
        self.previous = PreviousKind::Other;
    }
}

/// Whether a task in this state has joined.
pub fn is_joined(state: Option<TaskState>) -> bool
    ensures { result ≡ is_state_joined state }
{
    match state {
        Some(TaskState::Joined) => true,
        _ => false,
    }
}

// Whether this is the parent.
pub(crate) fn is_parent(parent: Option<u32>, t: u32) -> bool
    ensures { result ≡ option_is parent t }
{
    match parent {
        Some(parent) => parent == t,
        None => false,
    }
}
