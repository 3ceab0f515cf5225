// The roots of a part's heap.

ghost use Rattle.std.specs.Prelude.{◌≡◌, ℕ, IfOk, None};
ghost use Rattle.entry_calls.specs.below.core_invariant.{WorkerPartFits, roots_of, accounts};

use crate::shared::Shared;
use entry_calls::{Addr, Private};
use std::alloc::AllocError;

impl Shared {
    /// What the remembered fields that point down into the heap of a part hold now.
    pub(crate) fn roots(&self, part: &Private) -> Result<Vec<Addr>, AllocError>
        requires fits { (k : ℕ) × WorkerPartFits self.now k part.now }
        requires fresh { part.now.fresh ≡ 0 }
        requires goes { (accounts self.now).end ≡ None }
        ensures { IfOk result (λ v. v.items ≡ roots_of self.now part.now) }
    {
        let alloc = self.heaps.task_slots.allocator();
        self.heaps.targets(alloc, part.task, part.heap.chunks())
    }
}
