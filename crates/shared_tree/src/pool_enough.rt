// Whether enough chunks are free for a leaf collection of a part.

ghost use Rattle.std.specs.Prelude.{◌≡◌};
ghost use Rattle.entry_calls.specs.below.run_ledger.{is_pool_enough};
ghost use Rattle.entry_calls.specs.below.core_invariant.{IsOutPart, accounts};

use crate::shared::Shared;
use entry_calls::{Private, chunks_for};

impl Shared {
    /// Whether enough chunks are free for a leaf collection of a part.
    pub fn pool_enough(&self, part: &Private) -> bool
        requires out { IsOutPart self.now part.now }
        requires fresh { part.now.fresh ≡ 0 }
        ensures { result ≡ is_pool_enough self.now.settings (accounts self.now) part.now.task }
    {
        let words = part.heap.small_words();
        let used = self.heaps.pool.in_use() as u64;
        used + chunks_for(words) <= self.settings.chunks() as u64
    }
}
