// Pieces of chunks that were made together.

ghost use Rattle.std.specs.Prelude.{◌≡◌, ℕ, ◌∷◌, [], IfOk, OnOk, length, map};
ghost use Rattle.std.specs.Arc.{arc_value};
ghost use Rattle.std.specs.Option.{option_copied, option_or};
ghost use Rattle.frozen_views.specs.Level.{level_of, nearest, piece_in};

use object_layout::{Chunk, Piece};
use std::alloc::{AllocError, Global};
use std::collections::HashMap;
use std::marker::Model;
use std::sync::Arc;

/// Pieces of chunks with distinct numbers, and a table of their positions.
#[derive(Drop)]
pub struct Layer {
    pieces: Vec<Arc<Piece, Global>>,
    table: HashMap<u32, usize>,
}

impl Model for Layer {
    ghost use Rattle.std.specs.Prelude.{◌≡◌, ℕ, map, nat_eq};
    ghost use Rattle.std.specs.Arc.{arc_value};
    ghost use Rattle.std.specs.HashMap.{get};
    ghost use Rattle.frozen_views.specs.Level.{Level, place_on};

    ghost Value = { Level };

    ghost view = { λ l. map arc_value l.pieces.items };

    ghost invariant = { λ l. (number : ℕ) → get nat_eq l.table number ≡ place_on (map arc_value l.pieces.items) number };
}

impl Layer {
    /// A layer without pieces.
    pub fn new(alloc: Global) -> Layer
        ensures { result ≡ [] }
    {
        Layer {
            pieces: Vec::new(alloc),
            table: HashMap::new(alloc),
        }
    }

    /// How many pieces it has.
    pub fn len(&self) -> usize
        ensures { result ≡ length self.now }
    {
        self.pieces.len()
    }

    /// The piece of a number, if there is one.
    pub fn piece(&self, number: u32) -> Option<&Piece>
        ensures { option_copied result ≡ piece_in self.now number }
    {
        match self.table.get(&number) {
            None => None,
            Some(place) => Some(&self.pieces[*place]),
        }
    }

    // Adds a piece, unless there is one of its number.
    fn put(&mut self, piece: Arc<Piece, Global>) -> Result<(), AllocError>
        ensures { OnOk result ((n : ℕ) → piece_in self.new n ≡ option_or (piece_in self.old n) (piece_in (arc_value piece ∷ []) n)) }
    {
        let number = piece.number();
        self.table.reserve(1)?;
        self.pieces.reserve(1)?;
        if self.table.contains_key(&number) {
            return Ok(());
        }
        let _ = self.table.insert(number, self.pieces.len());
        self.pieces.push_reserved(piece);
        Ok(())
    }

    /// Adds the piece of a chunk, unless there is one of its number.
    pub fn add(&mut self, alloc: Global, chunk: &Chunk) -> Result<(), AllocError>
        ensures { OnOk result ((n : ℕ) → piece_in self.new n ≡ option_or (piece_in self.old n) (piece_in (level_of (chunk.now ∷ [])) n)) }
    {
        if self.table.contains_key(&chunk.number()) {
            return Ok(());
        }
        let piece = Arc::new(alloc, Piece::of(alloc, chunk)?)?;
        self.put(piece)
    }

    /// Adds the pieces of chunks, except of those whose number has one.
    pub fn add_all(&mut self, alloc: Global, chunks: &[Chunk]) -> Result<(), AllocError>
        ensures { OnOk result ((n : ℕ) → piece_in self.new n ≡ option_or (piece_in self.old n) (piece_in (level_of chunks.now) n)) }
    {
        for chunk in chunks {
            self.add(alloc, chunk)?;
        }
        Ok(())
    }

    // Shares the pieces of another layer, except of those whose number has one.
    fn share(&mut self, other: &Layer) -> Result<(), AllocError>
        ensures { OnOk result ((n : ℕ) → piece_in self.new n ≡ option_or (piece_in self.old n) (piece_in other.now n)) }
    {
        for piece in &other.pieces {
            self.put(Arc::try_clone(piece)?)?;
        }
        Ok(())
    }

    // The pieces of two layers; the first layer's if both have one of a number.
    pub(crate) fn of_both(alloc: Global, first: &Layer, second: &Layer) -> Result<Layer, AllocError>
        ensures { IfOk result (λ both. (n : ℕ) → piece_in both n ≡ option_or (piece_in first.now n) (piece_in second.now n)) }
    {
        let mut both = Layer::new(alloc);
        both.share(first)?;
        both.share(second)?;
        Ok(both)
    }
}

/// The piece of a number, in the nearest layer that has one.
pub fn piece_of(layers: &[Arc<Layer, Global>], number: u32) -> Option<&Piece>
    ensures { option_copied result ≡ nearest (map arc_value layers.now) number }
{
    for layer in layers {
        if let Some(piece) = layer.piece(number) {
            return Some(piece);
        }
    }
    None
}
