// Running tasks, tasks that haven't joined, and chunks in use.

ghost use Rattle.std.specs.Prelude.{◌≡◌, IfOk, IfSome, None};
ghost use Rattle.heap_reading.specs.HeldNames.{is_state_running};
ghost use Rattle.heap_reading.specs.Image.{AreAll, IsLiveIn, LiveBefore};

use core_invariant::{Listed, TaskState, Tree};
use std::alloc::{AllocError, Global};

/// A task that hasn't joined.
#[derive(Clone, Copy)]
pub struct LiveTask {
    pub number: u32,
    pub parent: Option<u32>,
    pub state: TaskState,
}

/// A chunk in use: its number, its owner and its words.
#[derive(Clone, Copy)]
pub struct InUse {
    pub number: u32,
    pub owner: u32,
    pub words: u64,
}

/// Whether a task in this state runs.
pub fn is_running(state: Option<TaskState>) -> bool
    ensures { result ≡ is_state_running state }
{
    match state {
        Some(TaskState::Ready) => true,
        Some(TaskState::Out) => true,
        _ => false,
    }
}

// The task of a number, if it exists and hasn't joined.
fn live_task(tree: &Tree, number: u32) -> Option<LiveTask>
    ensures there { IfSome result (λ x. IsLiveIn tree.now x) }
    ensures number { IfSome result (λ x. x.number ≡ number) }
    ensures none { result ≡ None → (x : LiveTask) → x.number ≡ number → IsLiveIn tree.now x → ⊥ }
{
    match tree.state(number) {
        None => None,
        Some(TaskState::Joined) => None,
        Some(state) => Some(LiveTask {
            number,
            parent: tree.parent(number),
            state,
        }),
    }
}

/// The tasks of a tree that haven't joined, by ascending number.
pub fn live_in(alloc: Global, tree: &Tree) -> Result<Listed<LiveTask>, AllocError>
    ensures { IfOk result (λ tasks. AreAll LiveBefore (IsLiveIn tree.now) tasks) }
{
    let mut tasks = Listed::new(alloc);
    for number in 0..tree.made() {
        if let Some(task) = live_task(tree, number) {
            tasks.push(task)?;
        }
    }
    Ok(tasks)
}
