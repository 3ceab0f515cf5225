// Placing objects with their fields.

ghost use Rattle.std.specs.Prelude.{◌≡◌, ◌^◌, ◌<◌, length, option_map, All, Some};
ghost use Rattle.object_layout.specs.Cell.{filled_cell, size_of, BeginsInFirstUnit, chunk_words};
ghost use Rattle.object_layout.specs.Chunks.{chunk_at, next_address};
ghost use Rattle.leaf_heap.specs.LeafHeapValue.{with_object_placed, placed_at, place_for, IsSettled};

use super::contents::{Contents, New, SMALL};
use super::counts::small_part;
use object_layout::{Addr, write_filled};

impl Contents {
    /// Places an object with these references and numbers, and returns its address; None if `place` would place none of
    /// its kind.
    pub fn place_filled(&mut self, new: New, refs: &[Option<Addr>], ints: &[i64]) -> Option<Addr>
        requires refs { new.header.nrefs ≡ length refs.now }
        requires ints { new.header.nints ≡ length ints.now }
        requires few_refs { new.header.nrefs < 2 ^ 20 }
        requires few_ints { new.header.nints < 2 ^ 20 }
        requires places { All BeginsInFirstUnit refs.now }
        ensures address { let object = filled_cell new.header new.birth refs.now ints.now in result ≡ option_map (λ i. next_address (chunk_at self.old.chunks i)) (place_for self.old (size_of object)) }
        ensures near { BeginsInFirstUnit result }
        ensures placed { let object = filled_cell new.header new.birth refs.now ints.now in self.new ≡ with_object_placed self.old (place_for self.old (size_of object)) object }
        ensures settled { IsSettled self.old.chunks → IsSettled self.new.chunks }
    {
        let words = 2 + new.header.nrefs + new.header.nints;
        match self.chunk_for(words) {
            None => None,
            Some(i) => Some(self.place_filled_in(i, new, refs, ints)),
        }
    }

    // Places it in the chunk at a position.
    fn place_filled_in(&mut self, i: usize, new: New, refs: &[Option<Addr>], ints: &[i64]) -> Addr
        requires refs { new.header.nrefs ≡ length refs.now }
        requires ints { new.header.nints ≡ length ints.now }
        requires few_refs { new.header.nrefs < 2 ^ 20 }
        requires few_ints { new.header.nints < 2 ^ 20 }
        requires places { All BeginsInFirstUnit refs.now }
        requires fits { place_for self.old (size_of (filled_cell new.header new.birth refs.now ints.now)) ≡ Some i }
        ensures address { result ≡ next_address (chunk_at self.old.chunks i) }
        ensures near { result.offset < chunk_words }
        ensures placed { self.new ≡ placed_at self.old i (filled_cell new.header new.birth refs.now ints.now) }
        ensures settled { IsSettled self.old.chunks → IsSettled self.new.chunks }
    {
        let words = 2 + new.header.nrefs + new.header.nints;
        let chunk = self.chunks.at_mut(i);
        let offset = chunk.used();
        let number = chunk.number();
        self.pieces.note_change(number);
        write_filled(chunk, offset, new.header, new.birth, refs, ints);
        if words > SMALL {
            self.reserved = None;
        }
        self.since = self.since.saturating_add(words as u64);
        self.words = self.words.saturating_add(words as u64);
        self.objects = self.objects.saturating_add(1);
        self.small = self.small.saturating_add(small_part(words) as u64);
        Addr {
            chunk: number,
            offset,
        }
    }
}
