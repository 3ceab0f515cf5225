// A cached position of a chunk.

ghost use Rattle.std.specs.Prelude.{◌≡◌};
ghost use Rattle.object_layout.specs.Chunks.{place_in};
ghost use Rattle.copying_gc.specs.Near.{FindsChunk};

use leaf_heap::Space;

/// The number of the chunk that was looked up last, and the position of that chunk in the heap; no position if the heap
/// has no such chunk.
///
/// Objects that refer to each other are mostly close together, so mostly the same number is looked up again, which then
/// costs a comparison.
#[derive(Clone, Copy)]
pub(crate) struct Near {
    number: u32,
    place: Option<usize>,
}

impl Near {
    /// Before the first look-up: what is known of the number 0.
    pub(crate) fn of(heap: &Space) -> Near
        ensures { FindsChunk result heap.now.chunks }
    {
        Near {
            number: 0,
            place: heap.place_of(0),
        }
    }

    /// The position of the chunk of a number, if the heap has it.
    pub(crate) fn place_of(&mut self, heap: &Space, number: u32) -> Option<usize>
        requires { FindsChunk self.old heap.now.chunks }
        ensures place { result ≡ place_in heap.now.chunks number }
        ensures known { FindsChunk self.new heap.now.chunks }
    {
        if self.number != number {
            self.place = heap.place_of(number);
            self.number = number;
        }
        self.place
    }
}
