// The state of a collection.

ghost use Rattle.std.specs.Prelude.{◌≡◌, ◌+◌, length, reverse, vec_len, vec_capacity, Some};
ghost use Rattle.object_layout.specs.Cell.{IsObject};
ghost use Rattle.object_layout.specs.Chunks.{cell_of, place_in};
ghost use Rattle.copying_gc.specs.Survivors.{live_count};
ghost use Rattle.copying_gc.specs.CollectorValue.{HavePlaces};

use crate::lists::Survivor;
use crate::near::Near;
use leaf_heap::Space;
use object_layout::{Addr, Chunk};
use std::marker::Model;

/// A collection in progress: the heap, what was found in it, the new chunks, of which the last is being filled, those
/// not opened yet, of which the last is opened first, and the old and new addresses of what was copied.
///
/// Its lists have capacity for all objects and all chunks, so a step of it doesn't allocate. Only sorting tries to
/// allocate, and does without if that fails.
#[derive(Drop)]
pub(crate) struct Collector {
    pub(crate) heap: Space,
    pub(crate) found: Vec<Survivor>,
    pub(crate) laid: Vec<Chunk>,
    pub(crate) spare: Vec<Chunk>,
    pub(crate) moved: Vec<(Addr, Addr)>,
    // The cached chunk position of the object that is read or copied.
    object: Near,
    // The cached chunk position of the object to which a reference leads.
    pub(crate) target: Near,
}

impl Model for Collector {
    ghost use Rattle.std.specs.Prelude.{◌+◌, length, reverse, vec_len, vec_capacity};
    ghost use Rattle.copying_gc.specs.Survivors.{live_count};
    ghost use Rattle.copying_gc.specs.CollectorValue.{CollectorValue, HavePlaces};
    ghost use Rattle.copying_gc.specs.Near.{FindsChunk};

    ghost Value = { CollectorValue };

    ghost view = { λ c. record { heap = c.heap; found = c.found.items; laying = record { laid = c.laid.items; spare = reverse c.spare.items }; moved = c.moved.items } };

    ghost invariant = { λ c. HavePlaces (vec_len c.found + live_count c.heap.chunks) (vec_len c.laid + vec_len c.spare + length c.heap.chunks) (vec_capacity c.found) (vec_capacity c.moved) (vec_capacity c.laid) × (FindsChunk c.object c.heap.chunks × FindsChunk c.target c.heap.chunks) };
}

impl Collector {
    /// A collection of a heap with these lists.
    pub(crate) fn of(
        heap: Space,
        found: Vec<Survivor>,
        laid: Vec<Chunk>,
        spare: Vec<Chunk>,
        moved: Vec<(Addr, Addr)>,
    ) -> Collector
        requires { HavePlaces (vec_len found + live_count heap.chunks) (vec_len laid + vec_len spare + length heap.chunks) (vec_capacity found) (vec_capacity moved) (vec_capacity laid) }
        ensures { result ≡ record { heap = heap; found = found.items; laying = record { laid = laid.items; spare = reverse spare.items }; moved = moved.items } }
    {
        let near = Near::of(&heap);
        Collector {
            heap,
            found,
            laid,
            spare,
            moved,
            object: near,
            target: near,
        }
    }

    /// The position of the chunk of an object that is read or copied.
    pub(crate) fn place_of(&mut self, object: Addr) -> usize
        requires { IsObject (cell_of self.old.heap.chunks object).mark }
        ensures same { self.new ≡ self.old }
        ensures place { place_in self.old.heap.chunks object.chunk ≡ Some result }
    {
        self.object.place_of(&self.heap, object.chunk).unwrap()
    }
}
