// A heap's chunks taken out and put in as a whole, for collections and joins.

ghost use Rattle.std.specs.Prelude.{◌≡◌, ℕ, ◌+◌, ◌-◌, ◌^◌, ◌<◌, ◌≤◌, [], IfSome, None, length, nat_eq, option_map};
ghost use Rattle.std.specs.Option.{option_or};
ghost use Rattle.std.specs.HashMap.{get, hash_map_len, spare};
ghost use Rattle.object_layout.specs.Chunks.{chunk_at, place_in};
ghost use Rattle.leaf_heap.specs.Counted.{AreCounted};
ghost use Rattle.leaf_heap.specs.LeafHeapValue.{exchanged, merged, with_places, HaveDistinctNumbers, IsCurrent, IsReserved};

use super::contents::{BASE, Contents};
use super::counts::Counts;
use chunk_list::ChunkList;
use object_layout::Chunk;
use std::collections::HashMap;

impl Contents {
    /// Takes all chunks out. It doesn't allocate, and keeps capacity for as many.
    pub fn take_chunks(&mut self) -> Vec<Chunk>
        ensures chunks { result.items ≡ self.old.chunks }
        ensures taken { self.new ≡ with_places (exchanged self.old [] None None) self.new.slots self.new.spare }
        ensures spare { self.old.spare + length self.old.chunks ≤ self.new.spare }
    {
        self.pieces.let_go();
        self.current = None;
        self.reserved = None;
        self.words = 0;
        self.objects = 0;
        self.small = 0;
        self.table.clear();
        self.base = BASE;
        self.chunks.take()
    }

    /// Puts these chunks in place of the heap's own, which are dropped: with their counts, and the positions of the
    /// small chunk to be filled and of the reserved one. It doesn't allocate, and looks at no object.
    pub fn put_chunks(
        &mut self,
        chunks: Vec<Chunk>,
        counts: Counts,
        current: Option<usize>,
        reserved: Option<usize>,
    )
        requires apart { HaveDistinctNumbers chunks.items }
        requires counted { AreCounted chunks.items counts }
        requires current { IsCurrent chunks.items current }
        requires reserved { IsReserved chunks.items reserved }
        requires spare { length chunks.items ≤ self.old.spare }
        ensures put { self.new ≡ with_places (exchanged self.old chunks.items current reserved) self.new.slots self.new.spare }
        ensures spare { self.old.spare ≤ self.new.spare + length chunks.items }
    {
        self.words = counts.words;
        self.objects = counts.objects;
        self.small = counts.small;
        self.table.clear();
        self.base = BASE;
        index_chunks(&mut self.table, &chunks, BASE);
        self.pieces.let_go();
        self.chunks = ChunkList::of(chunks);
        self.current = current;
        self.reserved = reserved;
    }

    /// Puts the chunks of two other heaps in front of its own, and goes on filling its own chunk. It doesn't allocate,
    /// and takes time for the chunks of the others alone.
    pub fn merge(&mut self, mut left: Contents, mut right: Contents)
        requires apart { HaveDistinctNumbers (merged self.old left right).chunks }
        requires slots { length left.chunks + length right.chunks ≤ self.old.slots }
        requires spare { length left.chunks + length right.chunks ≤ self.old.spare }
        ensures merged { self.new ≡ with_places (merged self.old left right) self.new.slots self.new.spare }
    {
        let _few = self.chunks.len();
        let before = left.chunks.len() + right.chunks.len();
        self.since = self
            .since
            .saturating_add(left.since.saturating_add(right.since));
        self.words = self
            .words
            .saturating_add(left.words.saturating_add(right.words));
        self.objects = self
            .objects
            .saturating_add(left.objects.saturating_add(right.objects));
        self.small = self
            .small
            .saturating_add(left.small.saturating_add(right.small));
        self.base += right.chunks.len();
        index_chunks(&mut self.table, right.chunks.as_slice(), self.base);
        self.base += left.chunks.len();
        index_chunks(&mut self.table, left.chunks.as_slice(), self.base);
        drop(left.pieces);
        drop(right.pieces);
        self.pieces.note_changes(right.chunks.as_slice());
        self.pieces.note_changes(left.chunks.as_slice());
        self.chunks.put_before(right.chunks.take());
        self.chunks.put_before(left.chunks.take());
        self.current = behind(self.current, before);
        self.reserved = behind(self.reserved, before);
    }
}

// A position, with `before` more chunks in front of it.
fn behind(place: Option<usize>, before: usize) -> Option<usize>
    requires { IfSome place (λ i. i + before < 2 ^ 64) }
    ensures { result ≡ option_map (λ i. i + before) place }
{
    match place {
        None => None,
        Some(i) => Some(i + before),
    }
}

// Adds the distance of each of these chunks from a base to a table.
pub(crate) fn index_chunks(table: &mut HashMap<u32, usize>, chunks: &[Chunk], base: usize)
    requires apart { HaveDistinctNumbers chunks.now }
    requires new { (i : ℕ) → i < length chunks.now → get nat_eq table.old (chunk_at chunks.now i).number ≡ None }
    requires room { length chunks.now ≤ spare table.old }
    requires base { length chunks.now ≤ base }
    ensures places { (number : ℕ) → get nat_eq table.new number ≡ option_or (option_map (λ i. base - i) (place_in chunks.now number)) (get nat_eq table.old number) }
    ensures each { hash_map_len table.new ≡ hash_map_len table.old + length chunks.now }
    ensures spare { spare table.old ≤ spare table.new + length chunks.now }
{
    for (i, chunk) in chunks.iter().enumerate() {
        let _ = table.insert(chunk.number(), base - i);
    }
}
