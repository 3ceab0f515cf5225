// The blocks that other tasks name than those that bear them.

ghost use Rattle.std.specs.Prelude.{◌≡◌, ◌||◌, ℕ, OnOk, false};
ghost use Rattle.plain_vec.specs.Options.{option_is};
ghost use Rattle.log_heaps.specs.Tally.{is_shared};

use std::alloc::{AllocError, Global};
use std::collections::HashSet;

/// A set of blocks.
#[derive(Drop)]
pub(crate) struct SharedBlocks {
    pub(crate) blocks: HashSet<u64>,
}

impl SharedBlocks {
    /// No block.
    pub(crate) fn new(alloc: Global) -> SharedBlocks
        ensures { (b : ℕ) → is_shared result b ≡ false }
    {
        SharedBlocks {
            blocks: HashSet::new(alloc),
        }
    }

    /// Adds a block.
    pub(crate) fn note(&mut self, block: Option<u64>) -> Result<(), AllocError>
        ensures { OnOk result ((b : ℕ) → is_shared self.new b ≡ (option_is block b || is_shared self.old b)) }
    {
        match block {
            Some(block) => {
                self.blocks.insert(block)?;
                Ok(())
            }
            None => Ok(()),
        }
    }

    /// Whether it has a block.
    pub(crate) fn has(&self, block: u64) -> bool
        ensures { result ≡ is_shared self.now block }
    {
        self.blocks.contains(&block)
    }
}
