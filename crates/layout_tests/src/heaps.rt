// A leaf heap: fields of its objects, small and large ones.

use leaf_heap::LeafHeap;
use memory_scenes::{Put, Seen, at, freeze, heap_of, holds, is_mutable, number, set_number};
use object_layout::Addr;
use std::alloc::Global;

const OBJECT: Addr = Addr {
    chunk: 7,
    offset: 0,
};

const FIELDS: &[Put] = &[
    Put::Chunk(7, 1),
    Put::Object(1, 2, 5),
    Put::Lead((7, 0), (9, 4)),
];

const FIELDS_SEEN: &[Seen] = &[((7, 0), 5, Some((9, 4)))];

// Whether the object's second number is written, whether its reference is then visible, and its two numbers.
fn numbers(heap: &mut LeafHeap) -> (bool, bool, Option<i64>, Option<i64>) {
    let written = set_number(heap, OBJECT, 1, -1);
    let seen = holds(heap, FIELDS_SEEN);
    (
        written,
        seen,
        number(heap, OBJECT, 0),
        number(heap, OBJECT, 1),
    )
}

// Whether the object is mutable, whether it is then frozen, and whether it is mutable after that.
fn mutability(heap: &mut LeafHeap) -> (bool, bool, bool) {
    let before = is_mutable(heap, OBJECT);
    let frozen = freeze(heap, OBJECT);
    (before, frozen, is_mutable(heap, OBJECT))
}

// Both for a heap with such an object.
fn looks(alloc: Global) -> Option<((bool, bool, Option<i64>, Option<i64>), (bool, bool, bool))> {
    let mut heap = heap_of(alloc, FIELDS)?;
    let numbers = numbers(&mut heap);
    Some((numbers, mutability(&mut heap)))
}

#[test]
fn fields_of_own_objects(rt: HostRuntime) {
    let expected = ((true, true, Some(0), Some(-1)), (true, true, false));
    assert!(rt; looks(rt.alloc()) == Some(expected));
}

// Whether the largest small object fits in an empty chunk, its room, and whether capacity for one object can be
// reserved.
fn empty(alloc: Global) -> Option<(bool, u32, bool)> {
    let mut heap = heap_of(alloc, &[Put::Chunk(7, 1)])?;
    let (has_place, room) = (heap.has_place(1024), heap.room());
    Some((has_place, room, heap.make_spare(1).is_ok()))
}

// For a heap with the largest small object: the room, the words since the count began and all words; whether the
// smallest object fits, and whether the heap owns an address of its chunk and one of another; and the words after the
// count was reset.
fn full(alloc: Global) -> Option<((u32, u64, u64), (bool, bool, bool), u64)> {
    let mut heap = heap_of(alloc, &[Put::Chunk(7, 1), Put::Object(0, 1022, 0)])?;
    let words = (heap.room(), heap.since(), heap.words());
    let places = (heap.has_place(2), heap.owns(at(7, 3)), heap.owns(at(8, 0)));
    heap.reset_since();
    Some((words, places, heap.since()))
}

// The largest small object has 1,022 fields and fills its chunk.
#[test]
fn room_for_small_objects(rt: HostRuntime) {
    assert!(rt; empty(rt.alloc()) == Some((true, 1024, true)));
    assert!(rt; full(rt.alloc()) == Some(((0, 1024, 1024), (false, true, false), 0)));
}

// For a heap with a chunk of many units: the room, which chunk is reserved, and which of two sizes fits.
fn reserved(alloc: Global) -> Option<(u32, Option<usize>, bool, bool)> {
    let heap = heap_of(alloc, &[Put::Chunk(7, 977)])?;
    let (room, reserved) = (heap.room(), heap.reserved());
    Some((
        room,
        reserved,
        heap.has_place(1025),
        heap.has_place(1000002),
    ))
}

// Once an object fills it: the words since the count began, all words and the objects; the words of small objects, and
// which chunk is reserved.
fn filled(alloc: Global) -> Option<((u64, u64, u64), u64, Option<usize>)> {
    let heap = heap_of(alloc, &[Put::Chunk(7, 977), Put::Object(0, 1000000, 0)])?;
    let counts = (heap.since(), heap.words(), heap.objects());
    Some((counts, heap.small_words(), heap.reserved()))
}

// A large object, of at least 1,023 fields, has a chunk of exactly its units.
#[test]
fn chunks_of_large_objects(rt: HostRuntime) {
    assert!(rt; reserved(rt.alloc()) == Some((0, Some(0), false, true)));
    assert!(rt; filled(rt.alloc()) == Some(((1000002, 1000002, 1), 0, None)));
}
