// The immutable objects of all chunks of a heap.

ghost use Rattle.std.specs.Prelude.{◌≡◌, ℕ, ◌-◌, ◌≤◌, ◌==◌, IfOk, None, OnOk, if◌then◌else◌, length, map, nat_eq, option_map};
ghost use Rattle.std.specs.Arc.{arc_value};
ghost use Rattle.std.specs.HashMap.{get};
ghost use Rattle.std.specs.Option.{option_copied, option_or};
ghost use Rattle.object_layout.specs.Chunks.{place_in};
ghost use Rattle.frozen_views.specs.PiecesValue.{is_among, needed, ShowsChunks};
ghost use Rattle.chunk_list.specs.View.{level_of, nearest, piece_in};

use super::row::ChunkList;
use frozen_views::{Layer, Pieces, piece_of};
use object_layout::{Chunk, Piece};
use std::alloc::{AllocError, Global};
use std::collections::HashMap;
use std::marker::Model;
use std::snapshot::Snapshot;
use std::sync::Arc;

/// The immutable objects of all chunks of a heap as they were at one time.
///
/// It shares the layers of pieces with the heap, as long as that caches them.
pub struct Shelf {
    layers: Vec<Arc<Layer, Global>>,
    // The chunks at that time.
    chunks: Snapshot<ChunkList>,
}

impl Drop for Shelf {
    fn drop(self) {
        let Shelf {
            layers: _,
            chunks: _,
        } = self;
    }
}

impl Model for Shelf {
    ghost use Rattle.std.specs.Prelude.{◌≡◌, ℕ, map};
    ghost use Rattle.std.specs.Arc.{arc_value};
    ghost use Rattle.chunk_list.specs.View.{Level, level_of, nearest, piece_in};

    ghost Value = { Level };

    ghost view = { λ s. level_of s.chunks.value.items };

    ghost invariant = { λ s. (number : ℕ) → nearest (map arc_value s.layers.items) number ≡ piece_in (level_of s.chunks.value.items) number };
}

impl Shelf {
    /// The immutable objects that these chunks have now, some pieces of which are cached.
    pub fn of(
        alloc: Global,
        chunks: &ChunkList,
        kept: &Pieces,
        table: &HashMap<u32, usize>,
        base: usize,
    ) -> Result<Shelf, AllocError>
        requires kept { ShowsChunks kept.now chunks.now.items }
        requires table { (number : ℕ) → get nat_eq table.now number ≡ option_map (λ i. base - i) (place_in chunks.now.items number) }
        requires base { length chunks.now.items ≤ base }
        ensures { IfOk result (λ shelf. shelf ≡ level_of chunks.now.items) }
    {
        let layers = all_layers(alloc, chunks.as_slice(), kept, table, base)?;
        Ok(Shelf {
            layers,
            chunks: Snapshot::of(chunks),
        })
    }

    /// The immutable objects that the chunk of a number had, if there was such a chunk.
    pub fn piece(&self, number: u32) -> Option<&Piece>
        ensures { option_copied result ≡ piece_in self.now number }
    {
        piece_of(&self.layers, number)
    }
}

// The layers that show what each of these chunks holds: the cached ones, and in front of them one of the missing
// pieces.
fn all_layers(
    alloc: Global,
    chunks: &[Chunk],
    kept: &Pieces,
    table: &HashMap<u32, usize>,
    base: usize,
) -> Result<Vec<Arc<Layer, Global>>, AllocError>
    requires kept { ShowsChunks kept.now chunks.now }
    requires table { (number : ℕ) → get nat_eq table.now number ≡ option_map (λ i. base - i) (place_in chunks.now number) }
    requires base { length chunks.now ≤ base }
    ensures { IfOk result (λ layers. (number : ℕ) → nearest (map arc_value layers.items) number ≡ piece_in (level_of chunks.now) number) }
{
    if kept.is_settled() {
        return kept.layers(alloc);
    }
    let first = missing_pieces(alloc, kept, chunks, table, base)?;
    kept.layers_below(alloc, first)
}

/// The pieces of those of these chunks without a current cached piece.
pub fn missing_pieces(
    alloc: Global,
    kept: &Pieces,
    chunks: &[Chunk],
    table: &HashMap<u32, usize>,
    base: usize,
) -> Result<Layer, AllocError>
    requires table { (number : ℕ) → get nat_eq table.now number ≡ option_map (λ i. base - i) (place_in chunks.now number) }
    requires base { length chunks.now ≤ base }
    ensures { IfOk result (λ layer. (number : ℕ) → piece_in layer number ≡ needed kept.now chunks.now number) }
{
    let mut layer = Layer::new(alloc);
    if kept.lost() {
        layer.add_all(alloc, chunks)?;
    } else {
        add_each(alloc, &mut layer, kept.stale(), chunks, table, base)?;
    }
    Ok(layer)
}

// Adds the pieces of the chunks of these numbers.
fn add_each(
    alloc: Global,
    layer: &mut Layer,
    numbers: &[u32],
    chunks: &[Chunk],
    table: &HashMap<u32, usize>,
    base: usize,
) -> Result<(), AllocError>
    requires table { (number : ℕ) → get nat_eq table.now number ≡ option_map (λ i. base - i) (place_in chunks.now number) }
    requires base { length chunks.now ≤ base }
    ensures { OnOk result ((n : ℕ) → piece_in layer.new n ≡ option_or (piece_in layer.old n) (if is_among numbers.now n then piece_in (level_of chunks.now) n else None)) }
{
    for number in numbers {
        add_one(alloc, layer, *number, chunks, table, base)?;
    }
    Ok(())
}

// Adds the piece of the chunk of a number, if there is one.
fn add_one(
    alloc: Global,
    layer: &mut Layer,
    number: u32,
    chunks: &[Chunk],
    table: &HashMap<u32, usize>,
    base: usize,
) -> Result<(), AllocError>
    requires table { (number : ℕ) → get nat_eq table.now number ≡ option_map (λ i. base - i) (place_in chunks.now number) }
    requires base { length chunks.now ≤ base }
    ensures { OnOk result ((n : ℕ) → piece_in layer.new n ≡ option_or (piece_in layer.old n) (if number == n then piece_in (level_of chunks.now) n else None)) }
{
    match table.get(&number) {
        None => Ok(()),
        Some(before) => layer.add(alloc, &chunks[base - *before]),
    }
}
