// Counts of what the chunks of a heap hold.

ghost use Rattle.std.specs.Prelude.{◌≡◌, ◌≤◌};
ghost use Rattle.object_layout.specs.Place.{words_in};
ghost use Rattle.object_layout.specs.Chunks.{object_words_in, one_each, small_part, sum_in};
ghost use Rattle.leaf_heap.specs.Counted.{AreCounted};

use super::contents::SMALL;
use object_layout::{Chunk, is_object_at, next_at};

/// The words of objects, how many there are, and the words of the small ones.
#[derive(Clone, Copy)]
pub struct Counts {
    pub words: u64,
    pub objects: u64,
    pub small: u64,
}

/// The words of an object, if it is small.
pub(crate) fn small_part(words: u32) -> u32
    ensures { result ≡ small_part words }
{
    if words <= SMALL { words } else { 0 }
}

/// The counts of all objects of these chunks.
pub fn counts_of(chunks: &[Chunk]) -> Counts
    ensures { AreCounted chunks.now result }
{
    let mut words = 0u64;
    let mut objects = 0u64;
    let mut small = 0u64;
    for chunk in chunks {
        let more = counts_in(chunk);
        words = words.saturating_add(more.words);
        objects = objects.saturating_add(more.objects);
        small = small.saturating_add(more.small);
    }
    Counts {
        words,
        objects,
        small,
    }
}

// The counts of all objects of a chunk.
fn counts_in(chunk: &Chunk) -> Counts
    ensures words { result.words ≡ object_words_in chunk.now.cells }
    ensures objects { result.objects ≡ sum_in one_each chunk.now.cells }
    ensures small { result.small ≡ sum_in small_part chunk.now.cells }
    ensures within { words_in chunk.now.cells ≤ chunk.now.size }
{
    let used = chunk.used();
    let mut at = 0;
    let mut words = 0u64;
    let mut objects = 0u64;
    let mut small = 0u64;
    while at < used {
        let next = next_at(chunk, at);
        if is_object_at(chunk, at) {
            words += (next - at) as u64;
            objects += 1;
            small += small_part(next - at) as u64;
        }
        at = next;
    }
    Counts {
        words,
        objects,
        small,
    }
}
