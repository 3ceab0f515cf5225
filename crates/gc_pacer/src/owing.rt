// What a worker owes by the pace of inner collections.

ghost use Rattle.std.specs.Prelude.{◌≡◌, ◌≤◌, List, None};
ghost use Rattle.run_statistics.specs.below.hh_model.{Strand};
ghost use Rattle.run_statistics.specs.below.run_ledger.{owed, owed_to_marks, WorkerPace};
ghost use Rattle.run_statistics.specs.below.core_invariant.{accounts};
ghost use Rattle.run_statistics.specs.below.heap_marking.{IsLastGoing, KeepsMarks, KeepsPace};

use crate::forks_of::{is_going, is_to_begin};
use run_statistics::{Fork, Owed, Pace, PreviousKind, Shared, marking_cause};

// The last of these markings that is under way.
fn last_going(shared: &Shared, forks: &[Fork]) -> Option<Fork>
    requires { (accounts shared.now).end ≡ None }
    ensures { IsLastGoing (accounts shared.now) forks.now result }
{
    let count = forks.len();
    for i in 0..count {
        let fork = forks[count - 1 - i];
        if is_going(shared, fork) {
            return Some(fork);
        }
    }
    None
}

// What is owed to a worker's markings.
fn owed_to_marks(shared: &Shared, pace: &Pace) -> Owed
    requires { (accounts shared.now).end ≡ None }
    ensures { (marks : List Strand) → KeepsMarks (accounts shared.now) pace.now.marks.items marks → result ≡ owed_to_marks (accounts shared.now) marks }
{
    shared.stands();
    let Some(fork) = last_going(shared, pace.marks.as_slice()) else {
        return Owed::Nothing;
    };
    if marking_cause(shared.tree(), &shared.heaps().task_slots, fork.task).is_some() {
        return Owed::Nothing;
    }
    if shared.is_marked(fork.task) {
        Owed::Sweep(fork.task)
    } else {
        Owed::More(fork.task)
    }
}

// What the worker with this record owes.
pub(crate) fn owed(shared: &Shared, pace: &Pace) -> Owed
    requires { (accounts shared.now).end ≡ None }
    ensures { (x : WorkerPace) → KeepsPace (accounts shared.now) pace.now x → result ≡ owed shared.now.settings (accounts shared.now) x }
{
    match pace.previous {
        PreviousKind::Other => Owed::Nothing,
        PreviousKind::Ran => owed_to_marks(shared, pace),
        PreviousKind::Forked(fork) => {
            if is_to_begin(shared, fork) {
                Owed::Mark(fork.task)
            } else {
                owed_to_marks(shared, pace)
            }
        }
    }
}

// Drops the last markings as long as they are over.
pub(crate) fn forget(shared: &Shared, pace: &mut Pace)
    requires { (accounts shared.now).end ≡ None }
    ensures keeps { (x : WorkerPace) → KeepsPace (accounts shared.now) pace.old x → KeepsPace (accounts shared.now) pace.new x }
    ensures room { pace.old.marks.room ≤ pace.new.marks.room }
{
    for _ in 0..pace.marks.as_slice().len() {
        let Some(fork) = pace.marks.pop() else {
            return;
        };
        if is_going(shared, fork) {
            pace.marks.push_reserved(fork);
            return;
        }
    }
}
