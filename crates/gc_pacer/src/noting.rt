// The record of a worker's entries, updated after each.

ghost use Rattle.std.specs.Prelude.{◌≡◌, ◌<◌, ℕ, IfOk, OnOk, None, is_some, length, slice_get, true};
ghost use Rattle.run_statistics.specs.below.hh_model.{is_waiting};
ghost use Rattle.run_statistics.specs.below.run_trace.{Mark, Ran};
ghost use Rattle.run_statistics.specs.below.run_ledger.{heap_of};
ghost use Rattle.run_statistics.specs.below.core_invariant.{accounts};
ghost use Rattle.gc_pacer.specs.Paces.{AreIdle, HasCapacityForMarking, KeepsNoted, NotesAt, NotesOther, SameMarks};

use crate::forks_of::fork_of;
use crate::owing::forget;
use run_statistics::{Listed, Pace, PreviousKind, Shared};
use std::alloc::{AllocError, Global};

// The records of workers without an entry.
pub(crate) fn idle_paces(alloc: Global, workers: u32) -> Result<Listed<Pace>, AllocError>
    ensures { IfOk result (λ paces. AreIdle paces workers) }
{
    let mut paces = Listed::new(alloc);
    for _ in 0..workers {
        paces.push(Pace::new(alloc))?;
    }
    Ok(paces)
}

// Reserves capacity for one more marking of a worker.
pub(crate) fn reserve_mark(paces: &mut Listed<Pace>, worker: u32) -> Result<(), AllocError>
    ensures same { NotesAt paces.old paces.new worker SameMarks }
    ensures room { OnOk result (HasCapacityForMarking paces.new worker) }
{
    if (worker as usize) < paces.len() {
        paces.at_mut(worker as usize).reserve()
    } else {
        Ok(())
    }
}

// Records an entry that is neither one of steps nor the beginning of a marking.
pub(crate) fn note_other(paces: &mut Listed<Pace>, worker: u32)
    ensures { NotesAt paces.old paces.new worker NotesOther }
{
    if (worker as usize) < paces.len() {
        paces.at_mut(worker as usize).after_other();
    }
}

// Records steps of a task for the worker that took them: the guessed child is its left one, if it has forked.
fn after_ran(shared: &Shared, pace: &mut Pace, task: u32, guess: u32)
    requires { (accounts shared.now).end ≡ None }
    ensures { (k : ℕ) → KeepsNoted (accounts shared.now) (Ran task k) pace.old pace.new }
{
    let fork = fork_of(shared, task, guess);
    forget(shared, pace);
    pace.after_steps(fork);
}

// Records steps of a task.
pub(crate) fn note_ran(
    shared: &Shared,
    paces: &mut Listed<Pace>,
    worker: u32,
    task: u32,
    guess: u32,
)
    ensures many { length paces.new ≡ length paces.old }
    ensures noted { (accounts shared.now).end ≡ None → (k : ℕ) → NotesAt paces.old paces.new worker (KeepsNoted (accounts shared.now) (Ran task k)) }
{
    if shared.has_ended() {
        return;
    }
    if (worker as usize) < paces.len() {
        after_ran(shared, paces.at_mut(worker as usize), task, guess);
    }
}

// The child that a worker's previous entry made, if it forked this task.
fn child_before(pace: &Pace, task: u32) -> u32 {
    match pace.previous {
        PreviousKind::Forked(fork) if fork.task == task => fork.left,
        _ => 0,
    }
}

// Records the beginning of the marking of a task's heap for the worker that began it.
fn after_mark(shared: &Shared, pace: &mut Pace, task: u32)
    requires goes { (accounts shared.now).end ≡ None }
    requires waits { is_waiting (slice_get (accounts shared.now).machine.tasks task) ≡ true }
    requires marked { is_some (heap_of (accounts shared.now) task).marked ≡ true }
    requires room { 0 < pace.old.marks.room }
    ensures { KeepsNoted (accounts shared.now) (Mark task) pace.old pace.new }
{
    let Some(fork) = fork_of(shared, task, child_before(pace, task)) else {
        unreachable!()
    };
    forget(shared, pace);
    pace.after_mark(fork);
}

// Records the beginning of the marking of a task's heap.
pub(crate) fn note_mark(shared: &Shared, paces: &mut Listed<Pace>, worker: u32, task: u32)
    requires goes { (accounts shared.now).end ≡ None }
    requires waits { is_waiting (slice_get (accounts shared.now).machine.tasks task) ≡ true }
    requires marked { is_some (heap_of (accounts shared.now) task).marked ≡ true }
    requires room { HasCapacityForMarking paces.old worker }
    ensures { NotesAt paces.old paces.new worker (KeepsNoted (accounts shared.now) (Mark task)) }
{
    if (worker as usize) < paces.len() {
        after_mark(shared, paces.at_mut(worker as usize), task);
    }
}
