// What is found of the blocks of a log.

use plain_vec::Listed;

/// An act that sees a block too early, or uses it too late.
#[derive(Clone, Copy, PartialEq, Eq)]
pub struct Finding {
    pub block: u64,
    /// The number of that act, counted over all files of the log from 0.
    pub line: u32,
    /// The number of the block's birth or release.
    pub other: u32,
}

/// All findings of a log, each list in the order of its lines.
#[derive(Drop)]
pub struct Findings {
    /// Reads that yield a block, whose birth doesn't happen before them.
    pub reads: Listed<Finding>,
    /// Accesses of a block whose birth doesn't happen before them.
    pub uses: Listed<Finding>,
    /// Accesses of a block whose release happens before them, on another strand.
    pub stale: Listed<Finding>,
}
