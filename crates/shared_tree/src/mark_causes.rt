// What is known of the heap of a waiting task, and what is left of it to mark.

ghost use Rattle.std.specs.Prelude.{◌≡◌, ◌==◌, None};
ghost use Rattle.entry_calls.specs.below.run_ledger.{heap_of, left_in, words_in};
ghost use Rattle.entry_calls.specs.below.leaf_heap.{saturating_words};
ghost use Rattle.entry_calls.specs.below.core_invariant.{accounts};
ghost use Rattle.entry_calls.specs.below.heap_marking.{marking_cause, waiting_cause};

use crate::shared::Shared;

impl Shared {
    /// The words of its heap, while its task waits, saturating at 64 bits.
    pub fn words_at(&self, t: u32) -> u64
        requires goes { (accounts self.now).end ≡ None }
        requires waits { waiting_cause self.now t ≡ None }
        ensures { result ≡ saturating_words (words_in (accounts self.now).machine (heap_of (accounts self.now) t)) }
    {
        match self.heaps.task_slots.rest(t) {
            Some(rest) => rest.heap.words(),
            None => unreachable!(),
        }
    }

    /// Whether nothing of it is left to mark, while it is being marked.
    pub fn is_marked(&self, t: u32) -> bool
        requires goes { (accounts self.now).end ≡ None }
        requires marking { marking_cause self.now t ≡ None }
        ensures { result ≡ (left_in (heap_of (accounts self.now) t) == 0) }
    {
        let kept = self.heaps.task_slots.kept(t);
        match self.heaps.task_slots.marking(t) {
            Some(marking) => marking.ready(kept),
            None => unreachable!(),
        }
    }
}
