// Remembered fields: recorded once, lifted at a join, and rewritten in a leaf heap.

ghost use Rattle.std.specs.Prelude.{IsTrue};
ghost use Rattle.remembered_set.specs.Moved.{AreFields};
ghost use Rattle.collection_tests.specs.Ready.{fields_of};

use crate::families::{Field, are_sources, note_all};
use memory_scenes::{Addr, CHUNK_WORDS, Chunk, LeafHeap, Put, Seen, at, heap_of, holds, is_live};
use remembered_set::{RefField, Remembered};
use std::alloc::Global;

// A set in which these fields were recorded.
fn set_of(alloc: Global, fields: &[Field]) -> Option<Remembered> {
    let mut set = Remembered::new(alloc);
    if note_all(&mut set, fields) {
        Some(set)
    } else {
        None
    }
}

// Lifts the fields of a child's set to that of a parent with these chunks; returns whether they were few enough.
fn lift(parent: &mut Remembered, from: Remembered, chunks: &[Chunk]) -> bool {
    if from.sources().len() > 10 || chunks.len() > 1 {
        return false;
    }
    let Ok(()) = parent.make_room(10, 1) else {
        return false;
    };
    parent.lift(from, chunks);
    true
}

// Lifts these fields of a child's set to that of a parent that has chunk 2; returns whether that succeeded.
fn lift_all(alloc: Global, parent: &mut Remembered, fields: &[Field]) -> bool {
    let Some(heap) = heap_of(alloc, &[Put::Chunk(2, 1)]) else {
        return false;
    };
    match set_of(alloc, fields) {
        Some(from) => lift(parent, from, heap.chunks()),
        None => false,
    }
}

// Whether the set of such a parent, which knows these fields, has the expected ones after those of its child were
// lifted.
fn is_lifted(alloc: Global, known: &[Field], fields: &[Field], expected: &[Field]) -> bool {
    match set_of(alloc, known) {
        Some(mut parent) => {
            lift_all(alloc, &mut parent, fields) && are_sources(parent.sources(), expected)
        }
        None => false,
    }
}

// The field of an object in the parent's chunk is dropped, and one that the parent knows occurs once.
#[test]
fn fields_lifted(rt: HostRuntime) {
    let fields = [(2, 0), (1, 0), (1, 0), (3, 4)];
    assert!(rt; is_lifted(rt.alloc(), &[(1, 0)], &fields, &[(1, 0), (3, 4)]));
}

// Whether the sources of a set are fields of objects of the heap.
fn are_fields(heap: &LeafHeap, sources: &[RefField]) -> bool
    ensures { IsTrue result → AreFields fields_of heap.now sources.now }
{
    match sources.split_first() {
        None => true,
        Some((first, rest)) => {
            is_live(heap.chunks(), first.object)
                && first.field < heap.own_header(first.object).nrefs
                && are_fields(heap, rest)
        }
    }
}

// Whether a set's sources are fields of objects, and exactly these of their references point into these chunks.
fn are_targets(
    alloc: Global,
    set: &Remembered,
    heap: &LeafHeap,
    chunks: &[Chunk],
    expected: &[Addr],
) -> bool {
    if !are_fields(heap, set.sources()) {
        return false;
    }
    match set.targets(alloc, heap, chunks) {
        Ok(found) => found.as_slice() == expected,
        Err(_) => false,
    }
}

const OLD: Addr = Addr {
    chunk: 9,
    offset: 4,
};

// Redirects the sources of a set that hold the old address, if they are fields of objects; returns whether the heap
// then has exactly these objects.
fn is_rewritten(set: &Remembered, heap: &mut LeafHeap, to: Addr, expected: &[Seen]) -> bool {
    if !are_fields(heap, set.sources()) || to.offset >= CHUNK_WORDS as u32 {
        return false;
    }
    set.rewrite(heap, &[(OLD, to)]);
    holds(heap, expected)
}

// The second object's reference leads into a heap that is collected.
const LEADS_AWAY: &[Put] = &[
    Put::Chunk(7, 1),
    Put::Object(0, 6, 1),
    Put::Object(1, 0, 0),
    Put::Lead((7, 8), (9, 4)),
];

const REWRITTEN: &[Seen] = &[((7, 0), 1, None), ((7, 8), 0, Some((11, 0)))];

// Whether the field is one that a collection of chunk 9 looks for.
fn is_found(alloc: Global, set: &Remembered, heap: &LeafHeap) -> bool {
    match heap_of(alloc, &[Put::Chunk(9, 1)]) {
        Some(collected) => are_targets(alloc, set, heap, collected.chunks(), &[OLD]),
        None => false,
    }
}

// Whether the field is found and rewritten, and then stays.
fn is_followed(alloc: Global, set: &Remembered, heap: &mut LeafHeap) -> [bool; 3] {
    let found = is_found(alloc, set, heap);
    let rewritten = is_rewritten(set, heap, at(11, 0), REWRITTEN);
    [
        found,
        rewritten,
        is_rewritten(set, heap, at(11, 8), REWRITTEN),
    ]
}

// The same for a new heap and its set.
fn is_followed_in_new_heap(alloc: Global) -> Option<[bool; 3]> {
    let mut heap = heap_of(alloc, LEADS_AWAY)?;
    let set = set_of(alloc, &[(7, 0)])?;
    Some(is_followed(alloc, &set, &mut heap))
}

// A field that still holds the old address is rewritten; one that was overwritten stays.
#[test]
fn fields_rewritten(rt: HostRuntime) {
    assert!(rt; is_followed_in_new_heap(rt.alloc()) == Some([true; 3]));
}
