// What the heaps of the tasks that don't run hold.

ghost use Rattle.std.specs.Prelude.{◌≡◌, ◌<◌, length};
ghost use Rattle.heap_reading.specs.below.run_ledger.{words_sum, held_not_running};
ghost use Rattle.heap_reading.specs.below.leaf_heap.{saturating_words};
ghost use Rattle.heap_reading.specs.below.core_invariant.{accounts};
ghost use Rattle.heap_reading.specs.HeldNames.{held_unless_running};

use heap_reading::is_running;
use shared_tree::Shared;

// How many objects are in the heap of a task, and their words, saturating at 64 bits; 0 for a task that runs.
fn held_of(shared: &Shared, t: u32) -> (u64, u64)
    requires made { t < length shared.now.rests }
    ensures objects { result.0 ≡ saturating_words (length (held_unless_running (accounts shared.now) t)) }
    ensures words { result.1 ≡ saturating_words (words_sum (accounts shared.now).machine (held_unless_running (accounts shared.now) t)) }
{
    shared.stands();
    if is_running(shared.tree().state(t)) {
        return (0, 0);
    }
    match shared.heaps().task_slots.rest(t) {
        Some(rest) => (rest.heap.objects(), rest.heap.words()),
        None => (0, 0),
    }
}

// The words of the heap of a task, saturating at 64 bits, and 0 for one that runs or doesn't exist.
pub(crate) fn words_held(shared: &Shared, t: u32) -> u64
    ensures { result ≡ saturating_words (words_sum (accounts shared.now).machine (held_unless_running (accounts shared.now) t)) }
{
    shared.stands();
    if (t as usize) < shared.heaps().task_slots.len() {
        held_of(shared, t).1
    } else {
        0
    }
}

/// How many objects are in the heaps of the tasks that neither a worker holds nor are ready, and their words: what the
/// report counts as held.
pub fn held(shared: &Shared) -> (u64, u64)
    ensures objects { result.0 ≡ length (held_not_running (accounts shared.now)) }
    ensures words { result.1 ≡ words_sum (accounts shared.now).machine (held_not_running (accounts shared.now)) }
{
    shared.stands();
    let mut objects = 0u64;
    let mut words = 0u64;
    for t in 0..shared.heaps().task_slots.len() as u32 {
        let held = held_of(shared, t);
        objects = objects.saturating_add(held.0);
        words = words.saturating_add(held.1);
    }
    (objects, words)
}
