// How each task stands with its parent, as turns are taken.

ghost use Rattle.std.specs.Prelude.{◌≡◌, IfOk};
ghost use Rattle.std.specs.List.{list_any};
ghost use Rattle.fork_graph.specs.Children.{none_spawned, spawns_open, IsTaken};
ghost use Rattle.fork_graph.specs.declared.graph.GraphTurn.TheVariants.{Spawn, Join};

use crate::graph::GraphTurn;
use plain_vec::Listed;
use std::alloc::{AllocError, Global};

/// How a task stands with its parent.
#[derive(Clone, Copy)]
pub(crate) enum ChildState {
    /// Nothing spawned it yet.
    Unspawned,
    /// The task of this number spawned it, and hasn't joined it.
    Open(u32),
    /// Its parent joined it, or it is the root.
    Joined,
}

/// Nothing is spawned but the root.
pub(crate) fn none_spawned(alloc: Global, count: usize) -> Result<Listed<ChildState>, AllocError>
    ensures { IfOk result (λ states. states ≡ none_spawned count) }
{
    let mut states = vec![in alloc; ChildState::Unspawned; count]?;
    if count > 0 {
        states[0] = ChildState::Joined;
    }
    Ok(Listed::from_vec(states))
}

/// Takes a turn of a task, if it's allowed: a spawn of a task that isn't spawned yet, or a join of an open child.
pub(crate) fn take_turn(states: &mut Listed<ChildState>, task: u32, turn: GraphTurn) -> bool
    ensures { IsTaken states.old task turn result states.new }
{
    match turn {
        GraphTurn::Spawn(child) => take_spawn(states, task, child),
        GraphTurn::Join(child) => take_join(states, task, child),
    }
}

fn take_spawn(states: &mut Listed<ChildState>, task: u32, child: u32) -> bool
    ensures { IsTaken states.old task (Spawn child) result states.new }
{
    let place = child as usize;
    match states.get(place) {
        Some(ChildState::Unspawned) => {
            states.set(place, ChildState::Open(task));
            true
        }
        _ => false,
    }
}

fn take_join(states: &mut Listed<ChildState>, task: u32, child: u32) -> bool
    ensures { IsTaken states.old task (Join child) result states.new }
{
    let place = child as usize;
    match states.get(place) {
        Some(ChildState::Open(parent)) if *parent == task => {
            states.set(place, ChildState::Joined);
            true
        }
        _ => false,
    }
}

/// Whether one of the children that turns spawn is open.
pub(crate) fn leaves_open(states: &Listed<ChildState>, turns: &[GraphTurn]) -> bool
    ensures { result ≡ list_any (spawns_open states.now) turns.now }
{
    for turn in turns {
        if spawns_open(states, *turn) {
            return true;
        }
    }
    false
}

// Whether a turn spawned a child that is open.
fn spawns_open(states: &Listed<ChildState>, turn: GraphTurn) -> bool
    ensures { result ≡ spawns_open states.now turn }
{
    match turn {
        GraphTurn::Spawn(child) => matches!(states.get(child as usize), Some(ChildState::Open(_))),
        GraphTurn::Join(_) => false,
    }
}
