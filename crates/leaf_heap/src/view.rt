// What the children of a heap's task see of it.

ghost use Rattle.std.specs.Prelude.{◌≡◌, IfOk};
ghost use Rattle.std.specs.Option.{option_copied};
ghost use Rattle.chunk_list.specs.View.{view_below};

use super::contents::Contents;
use super::heap::LeafHeap;
use chunk_list::{Shelf, View};
use std::alloc::AllocError;

impl Contents {
    // What the children of the heap's task see.
    fn view(&self, above: Option<&View>) -> Result<View, AllocError>
        ensures { IfOk result (λ view. view ≡ view_below self.now.chunks (option_copied above.entry)) }
    {
        let alloc = self.allocator();
        let _few = self.chunks.len();
        View::below(
            alloc,
            Shelf::of(alloc, &self.chunks, &self.pieces, &self.table, self.base)?,
            above,
        )
    }
}

impl LeafHeap {
    /// What the children of the heap's task see: its immutable objects, and what the task sees itself. Chunks that
    /// haven't changed since `settle` aren't copied.
    pub fn view(&self, above: Option<&View>) -> Result<View, AllocError>
        ensures { IfOk result (λ view. view ≡ view_below self.now.chunks (option_copied above.entry)) }
    {
        match &self.space.contents {
            Some(contents) => contents.get().view(above),
            None => View::below_bare(above),
        }
    }
}
