// Blocks for the slots of tasks: those that tasks left at their join are used again.

use crate::slots::{TaskSlot, nothing, slot_block};
use boxed::BoxedSlot;
use std::alloc::{AllocError, Global};
use std::marker::Model;

// How many blocks are kept at most.
const CAPACITY: usize = 16;

/// Blocks with empty slots, which are kept for tasks to be made.
#[derive(Drop)]
pub(crate) struct SpareBlocks {
    list: Vec<BoxedSlot<TaskSlot>>,
}

impl Model for SpareBlocks {
    ghost use Rattle.std.specs.Prelude.{◌≡◌, List};
    ghost use Rattle.std.specs.List.{All};
    ghost use Rattle.task_slots.specs.TaskSlotsValue.{empty_slot};
    ghost use Rattle.task_slots.specs.declared.slots.TaskSlot.{TaskSlot as SlotOf};

    ghost Value = { List SlotOf };

    ghost view = { λ s. s.list.items };

    ghost invariant = { λ s. All (λ slot. slot ≡ empty_slot) s.list.items };
}

impl SpareBlocks {
    ghost use Rattle.std.specs.Prelude.{◌≡◌, IfOk, None, false};
    ghost use Rattle.write_barrier.specs.Forms.{bare_noted};

    /// None yet, and the capacity to keep some.
    pub(crate) fn new(alloc: Global) -> Result<SpareBlocks, AllocError> {
        let list = Vec::with_capacity(alloc, CAPACITY)?;
        Ok(SpareBlocks { list })
    }

    /// A kept block, or a new one if none is kept.
    pub(crate) fn take(&mut self) -> Result<BoxedSlot<TaskSlot>, AllocError>
        ensures { IfOk result (λ slot. slot ≡ record { rest = None; set = bare_noted false; marking = None }) }
    {
        match self.list.pop() {
            Some(block) => Ok(block),
            None => slot_block(*self.list.allocator()),
        }
    }

    /// What a block holds. The block is kept, or freed if enough are kept.
    #[inline(always)]
    pub(crate) fn empty(&mut self, block: BoxedSlot<TaskSlot>) -> TaskSlot
        ensures { result ≡ block }
    {
        let mut block = block;
        let slot = block.replace(nothing(*self.list.allocator()));
        if self.list.len() < self.list.capacity() {
            self.list.push_reserved(block);
        }
        slot
    }
}
