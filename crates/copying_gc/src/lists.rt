// The arguments of a collection, and its result.

use object_layout::{Addr, Birth, Chunk};

/// An object that survives: its birth name, and its old address.
#[derive(Clone, Copy, PartialEq, Eq, PartialOrd, Ord)]
pub struct Survivor {
    pub birth: Birth,
    pub old: Addr,
}

/// The result of a collection.
#[derive(Drop)]
pub struct Moved {
    /// The old and the new address of each object that was moved, sorted by the old addresses.
    pub moved: Vec<(Addr, Addr)>,
    /// How many new chunks the heap has kept.
    pub taken: u32,
    /// How many units of chunks are released.
    pub given: u32,
    /// How many words the heap holds.
    pub left: u32,
    /// The chunks to release.
    pub back: Vec<Chunk>,
}

/// New chunks, of which the last is filled first, and empty lists with reserved capacity.
#[derive(Drop)]
pub struct ToChunks {
    pub chunks: Vec<Chunk>,
    pub lists: Moved,
    /// For the survivors.
    pub found: Vec<Survivor>,
    /// For the chunks that the heap will have.
    pub laid: Vec<Chunk>,
}
