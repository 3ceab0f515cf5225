// The fork on which a task waits, and what that says of the marking of its heap.

ghost use Rattle.std.specs.Prelude.{◌≡◌, None, slice_get};
ghost use Rattle.run_statistics.specs.below.core_invariant.{accounts};
ghost use Rattle.run_statistics.specs.below.heap_marking.{is_going, is_to_begin, IsForkOf};

use run_statistics::{Fork, Shared, fork_in, is_joined, waiting_cause};

// Whether the marking after a fork is under way.
pub(crate) fn is_going(shared: &Shared, fork: Fork) -> bool
    requires { (accounts shared.now).end ≡ None }
    ensures { result ≡ is_going (accounts shared.now) fork }
{
    shared.stands();
    let tree = shared.tree();
    if is_joined(tree.state(fork.left)) {
        return false;
    }
    waiting_cause(tree, &shared.heaps().task_slots, fork.task).is_none()
}

// Whether a marking is to begin after a fork.
pub(crate) fn is_to_begin(shared: &Shared, fork: Fork) -> bool
    requires { (accounts shared.now).end ≡ None }
    ensures { result ≡ is_to_begin shared.now.settings (accounts shared.now) fork }
{
    shared.stands();
    if is_going(shared, fork) {
        if shared.heaps().task_slots.marking(fork.task).is_some() {
            return false;
        }
        let least = shared.settings().inner() as u64;
        return least <= shared.words_at(fork.task);
    }
    false
}

// The fork on which a task waits, if it waits. O(1) if `guess` is a child of that fork or `t` isn't waiting; otherwise
// O(tasks).
pub(crate) fn fork_of(shared: &Shared, t: u32, guess: u32) -> Option<Fork>
    requires { (accounts shared.now).end ≡ None }
    ensures { IsForkOf (accounts shared.now) t result (slice_get (accounts shared.now).machine.tasks t) }
{
    shared.stands();
    fork_in(shared.tree(), t, guess)
}
