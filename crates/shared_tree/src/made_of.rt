// The contents of the shared value, to be read.

ghost use Rattle.std.specs.Prelude.{◌≡◌, length};
ghost use Rattle.entry_calls.specs.below.core_invariant.{accounts};

use crate::shared::Shared;
use entry_calls::{Heaps, Pool, Tree};

impl Shared {
    /// The number of tasks made.
    pub fn tasks(&self) -> u32
        ensures { result ≡ length (accounts self.now).machine.tasks }
    {
        self.tree.made()
    }

    /// The tree of tasks.
    pub fn tree(&self) -> &Tree
        ensures { result.now ≡ self.now.tree }
    {
        &self.tree
    }

    /// The chunks in use, by number.
    pub fn pool(&self) -> &Pool
        ensures { result.now ≡ self.now.pool }
    {
        &self.heaps.pool
    }

    /// The slot of each task, and which task owns each chunk.
    pub fn heaps(&self) -> &Heaps
        ensures pool { result.now.pool ≡ self.now.pool }
        ensures task_slots { result.now.task_slots.rests ≡ self.now.rests }
        ensures sets { result.now.task_slots.sets ≡ self.now.sets }
        ensures marks { result.now.task_slots.marks ≡ self.now.marks }
    {
        &self.heaps
    }
}
