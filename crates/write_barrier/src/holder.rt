// The holder of the sets of the heaps.

ghost use Rattle.std.specs.Prelude.{◌≡◌, ℕ, ◌<◌, OnErr, OnOk, Option, Some, option_map};
ghost use Rattle.write_barrier.specs.Stored.{with_kept, with_source, Content};

use object_layout::Addr;
use remembered_set::RefField;
use std::alloc::AllocError;

/// A value with a set for each task, by its number: what is noted for the collections of the task's heap.
pub trait HoldsSets {
    // the number of tasks
    ghost task_count: { Self → ℕ };

    // the number of sets
    ghost set_count: { Self → ℕ };

    // what the set of a task's heap holds; None if there is no such set
    ghost content: { Self → ℕ → Option Content };

    // the set of a task's heap, if it keeps references, has capacity for one more
    ghost has_place: { Self → ℕ → Type 0 };

    // the first value with the sets of the second
    ghost with_sets: { Self → Self → Self };

    /// Reserves capacity for one more overwritten reference in the set of a heap, if that keeps references.
    fn reserve_kept(&mut self, heap: u32) -> Result<(), AllocError>
        requires { heap < task_count self.old }
        ensures same { (t : ℕ) → content self.new t ≡ content self.old t }
        ensures place { OnOk result (has_place self.new heap) }
        ensures tasks { task_count self.new ≡ task_count self.old }
        ensures sets { set_count self.new ≡ set_count self.old }
        ensures others { self.new ≡ with_sets self.old self.new };

    /// Notes in the set of a heap a field that points down into it, unless it is there already.
    fn note(&mut self, heap: u32, source: RefField) -> Result<(), AllocError>
        requires { heap < task_count self.old }
        ensures ok { OnOk result ((t : ℕ) → content self.new t ≡ option_map (with_source (Some heap) source t) (content self.old t)) }
        ensures err { OnErr result ((t : ℕ) → content self.new t ≡ content self.old t) }
        ensures places { (t : ℕ) → has_place self.old t → has_place self.new t }
        ensures tasks { task_count self.new ≡ task_count self.old }
        ensures sets { set_count self.new ≡ set_count self.old }
        ensures others { self.new ≡ with_sets self.old self.new };

    /// Keeps an overwritten reference in the set of the heap into which it points, within the reserved capacity, if
    /// that heap keeps references.
    fn keep(&mut self, heap: u32, reference: Addr)
        requires made { heap < task_count self.old }
        requires place { has_place self.old heap }
        ensures kept { (t : ℕ) → content self.new t ≡ option_map (with_kept (Some heap) (Some reference) t) (content self.old t) }
        ensures tasks { task_count self.new ≡ task_count self.old }
        ensures sets { set_count self.new ≡ set_count self.old }
        ensures others { self.new ≡ with_sets self.old self.new };

    ghost with_own_sets: { (s : Self) → s ≡ with_sets s s };

    ghost with_sets_twice: { (a b c : Self) → with_sets (with_sets a b) c ≡ with_sets a c };
}
