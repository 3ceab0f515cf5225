// Why the heap of a task is neither marked nor swept, in terms of parts of the shared value.

ghost use Rattle.std.specs.Prelude.{◌≡◌};
ghost use Rattle.heap_marking.specs.MarkCauses.{is_state_waiting, marking_cause_in, waiting_cause_in, words_cause};

use core_invariant::{Refused, Settings, TaskSlots, TaskState, Tree};

/// Why the marking of a heap of `words` words that can be marked isn't due.
pub fn words_cause(settings: Settings, words: u64) -> Option<Refused>
    ensures { result ≡ words_cause settings words }
{
    if settings.inner() as u64 <= words {
        None
    } else {
        Some(Refused::NotDue(words))
    }
}

// Whether a task in this state waits.
pub(crate) fn is_waiting(state: Option<TaskState>) -> bool
    ensures { result ≡ is_state_waiting state }
{
    match state {
        Some(TaskState::Waiting) => true,
        _ => false,
    }
}

/// Because of its task's state, or because it was swept.
pub fn waiting_cause(tree: &Tree, task_slots: &TaskSlots, t: u32) -> Option<Refused>
    ensures { result ≡ waiting_cause_in tree.now task_slots.now.sets t }
{
    if !is_waiting(tree.state(t)) {
        return Some(Refused::NotWaiting);
    }
    if task_slots.keeps(t) {
        None
    } else {
        Some(Refused::Swept)
    }
}

/// Or because it isn't being marked.
pub fn marking_cause(tree: &Tree, task_slots: &TaskSlots, t: u32) -> Option<Refused>
    ensures { result ≡ marking_cause_in tree.now task_slots.now.sets task_slots.now.marks t }
{
    let waiting = waiting_cause(tree, task_slots, t);
    if waiting.is_some() {
        return waiting;
    }
    if task_slots.marking(t).is_some() {
        None
    } else {
        Some(Refused::NotMarking)
    }
}
