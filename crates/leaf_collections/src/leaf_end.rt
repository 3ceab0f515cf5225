// How the end of a leaf collection changes the heaps of other tasks and the pool.

ghost use Rattle.std.specs.Prelude.{◌≡◌, ◌<◌, All, IsSome, fold, length, slice_get};
ghost use Rattle.core_invariant.specs.below.chunk_pool.{slot_at};
ghost use Rattle.core_invariant.specs.below.leaf_heap.{HaveDistinctNumbers};
ghost use Rattle.core_invariant.specs.below.remembered_set.{redirected, AreFields, AreAscending, ArePlaces, StandOnce};
ghost use Rattle.core_invariant.specs.below.mark_sweep_gc.{AreGiven};
ghost use Rattle.core_invariant.specs.below.task_slots.{resting_references, resting, with_ref_in, with_resting};
ghost use Rattle.core_invariant.specs.Roots.{sources_of};

use core_invariant::{Addr, Chunk, Heaps, Pool};

/// Updates the remembered fields of a heap that still hold old addresses.
pub fn lead(heaps: &mut Heaps, task: u32, moved: &[(Addr, Addr)])
    requires made { task < length heaps.old.task_slots.rests }
    requires fields { AreFields resting_references (resting heaps.old) (sources_of (slice_get heaps.old.task_slots.sets task)) }
    requires order { AreAscending moved.now }
    requires places { ArePlaces moved.now }
    ensures led { heaps.new ≡ with_resting heaps.old (fold (redirected resting_references with_ref_in moved.now) (resting heaps.old) (sources_of (slice_get heaps.old.task_slots.sets task))) }
    ensures once { StandOnce (sources_of (slice_get heaps.old.task_slots.sets task)) }
{
    heaps.rewrite(task, moved);
}

/// Releases chunks.
pub fn give_all(pool: &mut Pool, chunks: Vec<Chunk>)
    requires apart { HaveDistinctNumbers chunks.items }
    requires in_use { All (λ k. IsSome (slot_at pool.old k.number)) chunks.items }
    ensures { AreGiven pool.old pool.new chunks.items }
{
    for chunk in chunks {
        pool.give(chunk);
    }
}
