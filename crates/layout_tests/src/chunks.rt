// Objects in the words of a chunk, and chunks of a pool.

ghost use Rattle.std.specs.Prelude.{◌≡◌, []};

use chunk_pool::Pool;
use memory_scenes::{is_full, owner, relabel, take, take_and_give};
use object_layout::{
    Addr, Birth, Chunk, Header, birth_at, copy_behind, drop_at, forward, forwarded_at, freeze,
    header_at, int_at, is_born_at, is_object_at, next_at, ref_at, set_birth, set_int, set_ref,
    write_new,
};
use std::alloc::Global;

const TO: Addr = Addr {
    chunk: 2,
    offset: 0,
};

const HEADER: Header = Header {
    nrefs: 1,
    nints: 2,
    mutable: true,
};

const BIRTH: Birth = Birth { task: 3, count: 5 };

const NEXT: Birth = Birth { task: 3, count: 6 };

// An object's target before and after it is forwarded, and its header then.
fn forwarding(alloc: Global) -> Option<(Option<Addr>, Option<Addr>, Header)> {
    let Ok(mut chunk) = Chunk::new(alloc, 7, 1) else {
        return None;
    };
    write_new(&mut chunk, 0, HEADER, BIRTH);
    let before = forwarded_at(&chunk, 0);
    forward(&mut chunk, 0, TO);
    Some((before, forwarded_at(&chunk, 0), header_at(&chunk, 0)))
}

// The birth name given to an object, and whether it is mutable after a freeze.
fn birth_and_frozen(alloc: Global) -> Option<(Birth, bool)> {
    let Ok(mut chunk) = Chunk::new(alloc, 7, 1) else {
        return None;
    };
    write_new(&mut chunk, 0, HEADER, BIRTH);
    forward(&mut chunk, 0, TO);
    set_birth(&mut chunk, 0, NEXT);
    let birth = birth_at(&chunk, 0);
    freeze(&mut chunk, 0);
    Some((birth, header_at(&chunk, 0).mutable))
}

#[test]
fn marks_of_an_object(rt: HostRuntime) {
    assert!(rt; forwarding(rt.alloc()) == Some((None, Some(TO), HEADER)));
    assert!(rt; birth_and_frozen(rt.alloc()) == Some((NEXT, false)));
}

// Whether an object is born, whether it is one after a drop, and where the next one begins then.
fn hole(alloc: Global) -> Option<(bool, bool, u32)> {
    let Ok(mut chunk) = Chunk::new(alloc, 7, 1) else {
        return None;
    };
    write_new(&mut chunk, 0, HEADER, BIRTH);
    let born = is_born_at(&chunk, 0);
    drop_at(&mut chunk, 0);
    Some((born, is_object_at(&chunk, 0), next_at(&chunk, 0)))
}

// The number, the size and the used words of a cleared chunk.
fn cleared(alloc: Global) -> Option<(u32, u32, u32)> {
    let Ok(mut chunk) = Chunk::new(alloc, 7, 1) else {
        return None;
    };
    write_new(&mut chunk, 0, HEADER, BIRTH);
    drop_at(&mut chunk, 0);
    chunk.clear();
    Some((chunk.number(), chunk.size(), chunk.used()))
}

#[test]
fn holes(rt: HostRuntime) {
    assert!(rt; hole(rt.alloc()) == Some((true, false, 5)));
    assert!(rt; cleared(rt.alloc()) == Some((7, 1024, 0)));
}

// The address of an object's copy, its reference, and its numbers.
fn copied(from: &mut Chunk, to: &mut Chunk) -> (u32, Option<Addr>, i64, i64)
    requires from_cells { from.old.cells ≡ [] }
    requires from_size { from.old.size ≡ 1024 }
    requires to_cells { to.old.cells ≡ [] }
    requires to_size { to.old.size ≡ 1024 }
{
    write_new(from, 0, HEADER, BIRTH);
    set_ref(from, 0, 0, Some(TO));
    set_int(from, 0, 1, -1);
    let at = copy_behind(from, 0, to);
    (at, ref_at(to, 0, 0), int_at(to, 0, 0), int_at(to, 0, 1))
}

// The same for two chunks.
fn copied_between(alloc: Global) -> Option<(u32, Option<Addr>, i64, i64)> {
    let Ok(mut from) = Chunk::new(alloc, 7, 1) else {
        return None;
    };
    let Ok(mut to) = Chunk::new(alloc, 8, 1) else {
        return None;
    };
    Some(copied(&mut from, &mut to))
}

#[test]
fn fields_of_a_copy(rt: HostRuntime) {
    assert!(rt; copied_between(rt.alloc()) == Some((0, Some(TO), 0, -1)));
}

// The number of a chunk taken from a new pool, whether three units are too many then, the units in use, the number and
// the size of a chunk that comes and goes, the units in use then, and the owner of its number.
fn first_taken(pool: &mut Pool) -> (Option<u32>, bool, u32, Option<(u32, u32)>, u32, Option<u32>) {
    let number = take(pool, 7, 1);
    let full = is_full(pool, 3);
    let before = pool.in_use();
    let given = take_and_give(pool, 2);
    (number, full, before, given, pool.in_use(), owner(pool, 1))
}

// The number of the next chunk, whether one unit is too many then, the units in use, and the owners of both once the
// second got another.
fn next_taken(pool: &mut Pool) -> (Option<u32>, bool, u32, Option<u32>, Option<u32>) {
    let number = take(pool, 8, 2);
    let full = is_full(pool, 1);
    let in_use = pool.in_use();
    relabel(pool, 1, 9);
    (number, full, in_use, owner(pool, 0), owner(pool, 1))
}

// A pool that is filled to its limit: a chunk changes its owner, and a returned number is used again.
#[test]
fn chunks_come_and_go(rt: HostRuntime) {
    let mut pool = Pool::new(rt.alloc(), 3);
    assert!(rt; first_taken(&mut pool) == (Some(0), true, 1, Some((1, 2048)), 1, None));
    assert!(rt; next_taken(&mut pool) == (Some(1), true, 3, Some(7), Some(9)));
}
