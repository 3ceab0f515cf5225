// The fork on which a task waits, by the tree.

ghost use Rattle.std.specs.Prelude.{◌≡◌};
ghost use Rattle.heap_marking.specs.Pace.{is_live_child, IsForkIn, IsLiveChild};

use crate::causes::is_waiting;
use crate::pace::{Fork, is_joined, is_parent};
use core_invariant::Tree;

// Whether a task is a child of t that hasn't joined.
fn is_live_child(tree: &Tree, t: u32, child: u32) -> bool
    ensures { result ≡ is_live_child tree.now t child }
{
    is_parent(tree.parent(child), t) && !is_joined(tree.state(child))
}

// A child of t that hasn't joined. O(tasks).
fn live_child(tree: &Tree, t: u32) -> Option<u32>
    ensures { IsLiveChild tree.now t result }
{
    let count = tree.made();
    for child in 0..count {
        if is_live_child(tree, t, child) {
            return Some(child);
        }
    }
    None
}

/// The fork on which a task waits, if it waits. O(1) if `guess` is a child of that fork or `t` isn't waiting; otherwise
/// O(tasks).
pub fn fork_in(tree: &Tree, t: u32, guess: u32) -> Option<Fork>
    ensures { IsForkIn tree.now t result }
{
    if is_live_child(tree, t, guess) {
        return Some(Fork {
            task: t,
            left: guess,
        });
    }
    if !is_waiting(tree.state(t)) {
        return None;
    }
    match live_child(tree, t) {
        Some(left) => Some(Fork { task: t, left }),
        None => None,
    }
}
