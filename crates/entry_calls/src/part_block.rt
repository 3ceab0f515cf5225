//! A boxed part, so that passing it moves a pointer.
ghost use Rattle.std.specs.Prelude.{◌≡◌};

use leaf_collections::Private;
use std::alloc::{AllocError, Global};
use std::marker::Model;
use std::snapshot::Snapshot;

/// A block for a part, which takes up a pointer. It is no `BoxedSlot`, since a placeholder part would allocate memory
/// of its own, for a frame.
#[derive(Drop)]
pub struct PartBlock {
    inner: Box<Option<Private>>,
}

/// A part in its block. Contracts see the part.
#[derive(Drop)]
pub struct PartInBlock {
    inner: Box<Option<Private>>,
}

impl Model for PartInBlock {
    ghost use Rattle.std.specs.Prelude.{◌≡◌, is_some, true};
    ghost use Rattle.entry_calls.specs.below.task_machine.{Private};
    ghost use Rattle.entry_calls.specs.Blocks.{part_in};

    ghost Value = { Private };

    ghost view = { λ h. part_in h.inner.value };

    ghost invariant = { λ h. is_some h.inner.value ≡ true };
}

impl PartBlock {
    /// A block, without a part yet.
    pub fn new(alloc: Global) -> Result<PartBlock, AllocError> {
        let inner = Box::new(alloc, None)?;
        Ok(PartBlock { inner })
    }

    /// Puts a part into it. It doesn't allocate.
    #[inline(always)]
    pub fn fill(self, part: Private) -> PartInBlock
        ensures { result ≡ part }
    {
        let mut inner = self.inner;
        *inner = Some(part);
        PartInBlock { inner }
    }
}

/// Where a worker's blocks come from: the allocator, and the block of the part that it gave up last.
#[derive(Drop)]
pub struct BlockSource {
    alloc: Global,
    spare: Option<PartBlock>,
}

impl BlockSource {
    ghost use Rattle.std.specs.Prelude.{◌≡◌};

    /// Nothing but the allocator.
    pub fn new(alloc: Global) -> BlockSource {
        BlockSource { alloc, spare: None }
    }

    /// The allocator.
    pub fn alloc(&self) -> Global {
        self.alloc
    }

    /// A block for a part.
    pub fn take(&mut self) -> Result<PartBlock, AllocError> {
        match self.spare.take() {
            Some(block) => Ok(block),
            None => PartBlock::new(self.alloc),
        }
    }

    /// Keeps a block for the next part.
    pub fn keep(&mut self, block: PartBlock) {
        self.spare = Some(block);
    }

    /// The part; its block is kept for the next one.
    pub fn unpack(&mut self, part: PartInBlock) -> Private
        ensures { result ≡ part }
    {
        let (part, block) = part.take_out();
        self.keep(block);
        part
    }
}

impl PartInBlock {
    ghost use Rattle.std.specs.Prelude.{◌≡◌};
    ghost use Rattle.std.specs.Borrow.{sem};
    ghost use Rattle.entry_calls.specs.PartLends.{lends_part};

    /// The part, and its block, which can be reused.
    #[inline(always)]
    pub fn take_out(self) -> (Private, PartBlock)
        ensures { result.0 ≡ self }
    {
        let mut inner = self.inner;
        match inner.take() {
            Some(part) => (part, PartBlock { inner }),
            None => unreachable!(),
        }
    }

    /// A reference to the part.
    pub fn get(&self) -> &Private
        ensures { result.now ≡ self.now }
    {
        match &*self.inner {
            Some(part) => part,
            None => unreachable!(),
        }
    }

    /// Its task.
    pub fn task(&self) -> u32
        ensures { result ≡ self.now.task }
    {
        self.get().task
    }

    /// How many steps of it were taken since its last entry.
    pub fn fresh(&self) -> u32
        ensures { result ≡ self.now.fresh }
    {
        self.get().fresh
    }

    /// Its plain contents.
    pub fn snapshot(&self) -> Snapshot<Private>
        ensures { result.value ≡ self.now }
    {
        Snapshot::of(self.get())
    }

    /// A mutable reference to the part.
    pub fn get_mut(&mut self) -> &mut Private
        ensures* writes_back { sem 𝓛 (lends_part self.entry result) }
        ensures value { result.now ≡ self.old }
    {
        match &mut *self.inner {
            Some(part) => part,
            None => unreachable!(),
        }
    }
}
