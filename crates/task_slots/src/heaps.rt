// The heaps of the tasks that no worker holds, by the addresses of their objects.

ghost use Rattle.std.specs.Prelude.{◌≡◌, ◌<◌, IfOk, fold, length, slice_get};
ghost use Rattle.chunk_pool.specs.PoolValue.{owner_of};
ghost use Rattle.remembered_set.specs.Moved.{redirected, targets_of, AreFields, AreAscending, ArePlaces};
ghost use Rattle.remembered_set.specs.Sources.{StandOnce};
ghost use Rattle.task_slots.specs.TaskSlotsValue.{sources_of};
ghost use Rattle.task_slots.specs.RestingHeaps.{resting_references, resting, with_ref_in, with_resting};

use crate::slots::TaskSlots;
use chunk_pool::Pool;
use object_layout::{Addr, Chunk, Words};
use std::alloc::{AllocError, Global};

/// The slot of each task, and which task owns each chunk.
pub struct Heaps {
    pub task_slots: TaskSlots,
    pub pool: Pool,
}

impl Drop for Heaps {
    fn drop(self) {
        let Heaps {
            task_slots: _,
            pool: _,
        } = self;
    }
}

impl Heaps {
    // The task that owns the chunk of a number, if that is in use.
    fn owner(&self, number: u32) -> Option<u32>
        ensures { result ≡ owner_of self.now.pool number }
    {
        match self.pool.slot(number) {
            Some(held) => Some(held.owner),
            None => None,
        }
    }

    /// What the remembered fields of the heap of a task hold, if it points into these chunks: the addresses in the
    /// order in which the fields were noted. Without such fields it looks at no chunk.
    pub fn targets(
        &self,
        alloc: Global,
        task: u32,
        chunks: &[Chunk],
    ) -> Result<Vec<Addr>, AllocError>
        requires { AreFields resting_references (resting self.now) (sources_of (slice_get self.now.task_slots.sets task)) }
        ensures { IfOk result (λ v. v.items ≡ targets_of resting_references (resting self.now) chunks.now (sources_of (slice_get self.now.task_slots.sets task))) }
    {
        match self.task_slots.slot(task) {
            Some(slot) => slot.set.targets(alloc, self, chunks),
            None => Ok(Vec::new(alloc)),
        }
    }

    /// Updates each remembered field of the heap of a task that still holds an old address to the new one, and leaves
    /// the others unchanged. The relocation list is sorted by the old addresses.
    pub fn rewrite(&mut self, task: u32, moved: &[(Addr, Addr)])
        requires made { task < length self.old.task_slots.rests }
        requires fields { AreFields resting_references (resting self.old) (sources_of (slice_get self.old.task_slots.sets task)) }
        requires order { AreAscending moved.now }
        requires places { ArePlaces moved.now }
        ensures led { self.new ≡ with_resting self.old (fold (redirected resting_references with_ref_in moved.now) (resting self.old) (sources_of (slice_get self.old.task_slots.sets task))) }
        ensures once { StandOnce (sources_of (slice_get self.old.task_slots.sets task)) }
    {
        if self.task_slots.has_block(task) {
            let set = self.task_slots.take_set(task);
            set.rewrite(self, moved);
            self.task_slots.put_set(task, set);
        }
    }
}

/// The words of the heaps of the tasks that no worker holds.
impl Words for Heaps {
    ghost use Rattle.task_slots.specs.RestingHeaps.{heap_refs, heap_refs_other, heap_refs_same, with_heap_ref};

    ghost refs_at = { heap_refs };

    ghost with_ref_at = { with_heap_ref };

    fn ref_field(&self, object: Addr, field: u32) -> Option<Addr> {
        let Some(owner) = self.owner(object.chunk) else {
            unreachable!()
        };
        self.task_slots.reference(owner, object, field)
    }

    fn set_ref_field(&mut self, object: Addr, field: u32, value: Option<Addr>) {
        let Some(owner) = self.owner(object.chunk) else {
            unreachable!()
        };
        self.task_slots.set_reference(owner, object, field, value);
    }

    ghost refs_at_same = { heap_refs_same };

    ghost refs_at_other = { heap_refs_other };
}
