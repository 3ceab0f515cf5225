// Heaps for tests. Each call checks its preconditions, and reports if they don't hold.

ghost use Rattle.std.specs.Prelude.{IsTrue};
ghost use Rattle.object_layout.specs.Cell.{IsObject};
ghost use Rattle.object_layout.specs.Chunks.{cell_of};
ghost use Rattle.object_layout.specs.Graph.{HasObjectAt};

use crate::soundness::{is_fresh, is_live};
use leaf_heap::{LeafHeap, New};
use object_layout::{Addr, Birth, CHUNK_WORDS, Chunk, Header};
use std::alloc::Global;
use task_frames::Frames;

const NOWHERE: Option<Addr> = None;

/// An address.
pub fn at(chunk: u32, offset: u32) -> Addr {
    Addr { chunk, offset }
}

/// The address that a table gives.
pub fn at_spot(spot: Spot) -> Addr {
    at(spot.0, spot.1)
}

/// One frame whose registers are all nil.
pub fn one_frame(alloc: Global) -> Option<Frames> {
    Frames::start(alloc, 0, &[0; 16], &[NOWHERE; 16]).ok()
}

// Adds an empty chunk; returns whether that succeeded.
fn add(alloc: Global, heap: &mut LeafHeap, number: u32, units: u32) -> bool {
    if units == 0 || units > 1000 || !is_fresh(heap.chunks(), number) {
        return false;
    }
    match Chunk::new(alloc, number, units) {
        Ok(chunk) => heap.add(chunk).is_ok(),
        Err(_) => false,
    }
}

/// Places an object of task 3; returns whether that succeeded.
pub fn place(heap: &mut LeafHeap, nrefs: u32, nints: u32, count: u32) -> bool {
    if nrefs > 1000000 || nints > 1000000 {
        return false;
    }
    let header = Header {
        nrefs,
        nints,
        mutable: true,
    };
    let birth = Birth { task: 3, count };
    matches!(heap.place(New { header, birth }), Ok(Some(_)))
}

/// Places an object of task 3 with n numbers, mutable or not; returns whether that succeeded.
pub fn place_kind(heap: &mut LeafHeap, nints: u32, mutable: bool) -> bool {
    if nints > 1000000 {
        return false;
    }
    let header = Header {
        nrefs: 0,
        nints,
        mutable,
    };
    let birth = Birth { task: 3, count: 9 };
    matches!(heap.place(New { header, birth }), Ok(Some(_)))
}

/// An address in a table: the number of the chunk, and the offset.
pub type Spot = (u32, u32);

/// What is put into a heap.
#[derive(Clone, Copy)]
pub enum Put {
    /// An empty chunk of this number and size in units.
    Chunk(u32, u32),
    /// An object with these numbers of references and numbers, and the count of its birth name.
    Object(u32, u32, u32),
    /// The first reference of the object at this address, and its target.
    Lead(Spot, Spot),
}

fn put_in(alloc: Global, heap: &mut LeafHeap, what: Put) -> bool {
    match what {
        Put::Chunk(number, units) => add(alloc, heap, number, units),
        Put::Object(nrefs, nints, count) => place(heap, nrefs, nints, count),
        Put::Lead(object, to) => lead(heap, at_spot(object), at_spot(to)),
    }
}

/// A heap into which these were put in order.
pub fn heap_of(alloc: Global, all: &[Put]) -> Option<LeafHeap> {
    let mut heap = LeafHeap::new(alloc);
    for &what in all {
        if !put_in(alloc, &mut heap, what) {
            return None;
        }
    }
    Some(heap)
}

/// An object as tests see it: its address, the count of its birth name, and the target of its first reference.
pub type Seen = (Spot, u32, Option<Spot>);

// Whether such an object lies in the heap.
fn is_seen(heap: &LeafHeap, seen: Seen) -> bool {
    let (spot, count, to) = seen;
    let object = at_spot(spot);
    if !is_object(heap, object) || heap.own_birth(object).count != count {
        return false;
    }
    let first = if heap.own_header(object).nrefs == 0 {
        None
    } else {
        heap.own_ref(object, 0)
    };
    first == to.map(at_spot)
}

/// Whether exactly these objects lie in the heap.
pub fn holds(heap: &LeafHeap, objects: &[Seen]) -> bool {
    for &object in objects {
        if !is_seen(heap, object) {
            return false;
        }
    }
    heap.objects() == objects.len() as u64
}

// Whether an object lies there.
fn is_object(heap: &LeafHeap, object: Addr) -> bool
    ensures born { IsTrue result → HasObjectAt heap.now.chunks object }
    ensures object { IsTrue result → IsObject (cell_of heap.now.chunks object).mark }
{
    is_live(heap.chunks(), object)
}

// Writes the first reference of an object; returns whether that succeeded.
fn lead(heap: &mut LeafHeap, object: Addr, to: Addr) -> bool {
    if !is_object(heap, object)
        || to.offset >= CHUNK_WORDS as u32
        || heap.own_header(object).nrefs == 0
    {
        return false;
    }
    heap.own_set_ref(object, 0, Some(to));
    true
}

/// Writes a number of an object; returns whether that succeeded.
pub fn set_number(heap: &mut LeafHeap, object: Addr, field: u32, value: i64) -> bool {
    if !is_object(heap, object) || heap.own_header(object).nints <= field {
        return false;
    }
    heap.own_set_int(object, field, value);
    true
}

/// A number of an object; None if no object has it.
pub fn number(heap: &LeafHeap, object: Addr, field: u32) -> Option<i64> {
    if !is_object(heap, object) || heap.own_header(object).nints <= field {
        return None;
    }
    Some(heap.own_int(object, field))
}

/// Makes an object immutable; returns whether that succeeded.
pub fn freeze(heap: &mut LeafHeap, object: Addr) -> bool {
    if !is_object(heap, object) {
        return false;
    }
    heap.freeze(object);
    true
}

/// Whether an object is mutable.
pub fn is_mutable(heap: &LeafHeap, object: Addr) -> bool {
    is_object(heap, object) && heap.own_header(object).mutable
}
