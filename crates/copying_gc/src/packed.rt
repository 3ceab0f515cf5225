// What new chunks hold, counted without looking at each object.

ghost use Rattle.std.specs.Prelude.{◌≡◌, false};
ghost use Rattle.leaf_heap.specs.Counted.{AreCounted};
ghost use Rattle.leaf_heap.specs.LeafHeapValue.{saturating_words, CellsFitInChunks};
ghost use Rattle.copying_gc.specs.Packed.{used_words, ArePacked};

use leaf_heap::{Counts, counts_of};
use object_layout::Chunk;

// The words that objects and holes of these chunks take.
fn used_words(chunks: &[Chunk]) -> u64
    ensures words { result ≡ saturating_words (used_words chunks.now) }
    ensures within { CellsFitInChunks chunks.now }
{
    let mut words = 0u64;
    for chunk in chunks {
        words = words.saturating_add(chunk.used() as u64);
    }
    words
}

/// The counts of chunks that have no hole, no large object, and exactly `objects` objects.
pub(crate) fn counts_of_packed(chunks: &[Chunk], objects: usize) -> Counts
    requires { ArePacked chunks.now objects }
    ensures { AreCounted chunks.now result }
{
    let words = used_words(chunks);
    Counts {
        words,
        objects: objects as u64,
        small: words,
    }
}

/// The counts of chunks: those made while copying, unless large objects were added.
pub(crate) fn counts_with(chunks: &[Chunk], counts: Counts, are_large: bool) -> Counts
    requires { are_large ≡ false → AreCounted chunks.now counts }
    ensures { AreCounted chunks.now result }
{
    if are_large {
        return counts_of(chunks);
    }
    counts
}
