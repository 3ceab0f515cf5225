// How a sweep changes the heap, the marking and the set of a task.

ghost use Rattle.std.specs.Prelude.{◌≡◌, ◌≢◌, ℕ, IsSome, None, Some, false, true, length, option_map, slice_get, slice_set};
ghost use Rattle.core_invariant.specs.below.write_barrier.{content_at};
ghost use Rattle.core_invariant.specs.below.mark_sweep_gc.{MarkingValue};
ghost use Rattle.core_invariant.specs.SharedValue.{marks_at, rest_at};
ghost use Rattle.core_invariant.specs.below.task_slots.{ParkedTask as RestOf, keeping};
ghost use Rattle.heap_marking.specs.Sweeping.{CanSweep, SweepsSlot};

use core_invariant::{Heaps, MarkingRoom, TaskSlots};

/// Drops what isn't marked of the heap of a task at rest, and ends its marking, whose buffers it returns.
pub fn drop_unmarked(heaps: &mut Heaps, t: u32) -> MarkingRoom
    requires slot { IsSome (rest_at heaps.old.task_slots.rests t) }
    requires marking { IsSome (marks_at heaps.old.task_slots.marks t) }
    requires can { (r : RestOf) (m : MarkingValue) → rest_at heaps.old.task_slots.rests t ≡ Some r → marks_at heaps.old.task_slots.marks t ≡ Some m → CanSweep r.heap m heaps.old.pool }
    ensures swept { (r : RestOf) (m : MarkingValue) → rest_at heaps.old.task_slots.rests t ≡ Some r → marks_at heaps.old.task_slots.marks t ≡ Some m → SweepsSlot heaps.old.task_slots.rests heaps.new.task_slots.rests heaps.old.pool heaps.new.pool t r m }
    ensures task_slots { heaps.new.task_slots ≡ record heaps.old.task_slots { rests = heaps.new.task_slots.rests; marks = slice_set heaps.old.task_slots.marks t None } }
    ensures block { slice_get heaps.new.task_slots.blocks t ≡ Some true }
{
    let Some(marking) = heaps.task_slots.take_marking(t) else {
        unreachable!()
    };
    let mut rest = heaps.task_slots.take_rest(t);
    let (_, room) = marking
        .into_inner()
        .sweep_keeping(&mut rest.heap, &mut heaps.pool);
    heaps.task_slots.put_rest(t, rest);
    room
}

/// A heap keeps no overwritten references from now on.
pub fn forget_kept(task_slots: &mut TaskSlots, t: u32)
    requires block { slice_get task_slots.old.blocks t ≡ Some true }
    ensures task_slots { task_slots.new ≡ record task_slots.old { sets = task_slots.new.sets } }
    ensures many { length task_slots.new.sets ≡ length task_slots.old.sets }
    ensures none { content_at task_slots.new.sets t ≡ option_map (keeping false) (content_at task_slots.old.sets t) }
    ensures others { (u : ℕ) → u ≢ t → slice_get task_slots.new.sets u ≡ slice_get task_slots.old.sets u }
{
    task_slots.set_keeps(t, false);
}
