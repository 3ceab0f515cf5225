// The immutable objects of a chunk, kept for readers who don't have the chunk.

ghost use Rattle.std.specs.Prelude.{◌≡◌, ◌<◌, IfOk, Some, is_some, length, option_map, slice_get};
ghost use Rattle.object_layout.specs.Cell.{header_of, BeginsInFirstUnit};
ghost use Rattle.object_layout.specs.Piece.{frozen_at, frozen_of, or_no_cell, starts_in};

use crate::chunk::{Chunk, header_at, int_at, is_frozen_at, next_at, ref_at};
use crate::word::{Addr, Header};
use std::alloc::{AllocError, Global};
use std::marker::Model;

/// The immutable objects of a chunk as they were at one time.
///
/// It has a copy of the chunk's words, and the offsets of its immutable objects in order. Without immutable objects it
/// has no words.
#[derive(Drop)]
pub struct Piece {
    chunk: Chunk,
    starts: Vec<u32>,
}

impl Model for Piece {
    ghost use Rattle.std.specs.Prelude.{◌≡◌};
    ghost use Rattle.object_layout.specs.Piece.{PieceValue, frozen_of, starts_in};

    ghost Value = { PieceValue };

    ghost view = { λ p. frozen_of p.chunk };

    ghost invariant = { λ p. p.starts.items ≡ starts_in p.chunk.cells };
}

impl Piece {
    /// The immutable objects that a chunk has now.
    pub fn of(alloc: Global, chunk: &Chunk) -> Result<Piece, AllocError>
        ensures { IfOk result (λ p. p ≡ frozen_of chunk.now) }
    {
        let starts = starts_of(alloc, chunk)?;
        let chunk = if starts.is_empty() {
            Chunk::new(alloc, chunk.number(), 0)?
        } else {
            chunk.copy(alloc)?
        };
        Ok(Piece { chunk, starts })
    }

    /// The chunk's number.
    pub fn number(&self) -> u32
        ensures { result ≡ self.now.number }
    {
        self.chunk.number()
    }

    // Whether an immutable object begins at an offset.
    fn has(&self, offset: u32) -> bool
        ensures { result ≡ is_some (frozen_at self.now.objects offset) }
    {
        self.starts.as_slice().binary_search(&offset).is_ok()
    }

    /// The kind of the immutable object at an offset; None if none begins there.
    pub fn header(&self, offset: u32) -> Option<Header>
        ensures { result ≡ option_map header_of (frozen_at self.now.objects offset) }
    {
        if self.has(offset) {
            Some(header_at(&self.chunk, offset))
        } else {
            None
        }
    }

    /// A reference of the immutable object at an offset: None for nil.
    pub fn reference(&self, offset: u32, field: u32) -> Option<Addr>
        requires { field < length (or_no_cell (frozen_at self.now.objects offset)).refs }
        ensures value { slice_get (or_no_cell (frozen_at self.now.objects offset)).refs field ≡ Some result }
        ensures place { BeginsInFirstUnit result }
    {
        ref_at(&self.chunk, offset, field)
    }

    /// A number of the immutable object at an offset.
    pub fn int(&self, offset: u32, field: u32) -> i64
        requires { field < length (or_no_cell (frozen_at self.now.objects offset)).ints }
        ensures { slice_get (or_no_cell (frozen_at self.now.objects offset)).ints field ≡ Some result }
    {
        int_at(&self.chunk, offset, field)
    }
}

// The offsets of the immutable objects of a chunk.
fn starts_of(alloc: Global, chunk: &Chunk) -> Result<Vec<u32>, AllocError>
    ensures { IfOk result (λ starts. starts.items ≡ starts_in chunk.now.cells) }
{
    let mut starts = Vec::new(alloc);
    let used = chunk.used();
    let mut at = 0;
    while at < used {
        if is_frozen_at(chunk, at) {
            starts.push(at)?;
        }
        at = next_at(chunk, at);
    }
    Ok(starts)
}
