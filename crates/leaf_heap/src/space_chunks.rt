// A heap's chunks behind their pointer: taken out and put in as a whole, and merged.

ghost use Rattle.std.specs.Prelude.{◌≡◌, ◌+◌, ◌≤◌, [], None, length};
ghost use Rattle.leaf_heap.specs.Counted.{AreCounted};
ghost use Rattle.leaf_heap.specs.LeafHeapValue.{saturating_words, exchanged, merged, no_contents, with_places, HaveDistinctNumbers, IsCurrent, IsReserved};

use super::contents::Contents;
use super::counts::Counts;
use super::space::Space;
use object_layout::Chunk;

impl Space {
    // What is behind the pointer; without one, no chunk.
    fn into_contents(self) -> Contents
        ensures { result ≡ with_places self result.slots result.spare }
    {
        match self.contents {
            Some(contents) => contents.into_inner(),
            None => Contents::new(self.alloc),
        }
    }

    /// Takes all chunks out. It takes no memory, and leaves places for as many.
    pub fn take_chunks(&mut self) -> Vec<Chunk>
        ensures chunks { result.items ≡ self.old.chunks }
        ensures taken { self.new ≡ with_places (exchanged self.old [] None None) self.new.slots self.new.spare }
        ensures spare { self.old.spare + length self.old.chunks ≤ self.new.spare }
    {
        match &mut self.contents {
            Some(contents) => contents.get_mut().take_chunks(),
            None => Vec::new(self.alloc),
        }
    }

    /// Puts these chunks in place of the heap's own, which are let go: with what they hold, counted; at which place the
    /// small chunk stands that is filled from then on, and at which the reserved one. It takes no memory, and looks at
    /// no object.
    pub fn put_chunks(
        &mut self,
        chunks: Vec<Chunk>,
        counts: Counts,
        current: Option<usize>,
        reserved: Option<usize>,
    )
        requires apart { HaveDistinctNumbers chunks.items }
        requires counted { AreCounted chunks.items counts }
        requires current { IsCurrent chunks.items current }
        requires reserved { IsReserved chunks.items reserved }
        requires spare { length chunks.items ≤ self.old.spare }
        ensures put { self.new ≡ with_places (exchanged self.old chunks.items current reserved) self.new.slots self.new.spare }
        ensures spare { self.old.spare ≤ self.new.spare + length chunks.items }
    {
        match &mut self.contents {
            Some(contents) => contents
                .get_mut()
                .put_chunks(chunks, counts, current, reserved),
            None => drop(chunks),
        }
    }

    /// Puts the chunks of two other heaps before its own, and goes on filling its own chunk. It
    /// takes no memory, and looks at the chunks of the others alone.
    pub fn merge(&mut self, left: Space, right: Space)
        requires apart { HaveDistinctNumbers (merged self.old left right).chunks }
        requires slots { length left.chunks + length right.chunks ≤ self.old.slots }
        requires spare { length left.chunks + length right.chunks ≤ self.old.spare }
        ensures merged { self.new ≡ with_places (merged self.old left right) self.new.slots self.new.spare }
    {
        match &mut self.contents {
            Some(contents) => contents
                .get_mut()
                .merge(left.into_contents(), right.into_contents()),
            None => *self = without_chunks(left, right),
        }
    }
}

// Two heaps without chunks as one: the words are counted that were placed in both.
fn without_chunks(left: Space, right: Space) -> Space
    requires left { left.chunks ≡ [] }
    requires right { right.chunks ≡ [] }
    ensures { result ≡ with_places (merged no_contents left right) result.slots result.spare }
{
    let placed = right.since();
    let alloc = left.alloc;
    match left.contents {
        Some(mut contents) => {
            contents.get_mut().count_placed(placed);
            Space {
                contents: Some(contents),
                alloc,
            }
        }
        None => counted_again(right),
    }
}

// A heap without chunks, as it is.
fn counted_again(heap: Space) -> Space
    requires { heap.chunks ≡ [] }
    ensures { result ≡ record no_contents { since = saturating_words heap.since; slots = result.slots; spare = result.spare } }
{
    let mut heap = heap;
    match &mut heap.contents {
        Some(contents) => contents.get_mut().count_placed(0),
        None => {}
    }
    heap
}
