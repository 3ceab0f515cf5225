// Exchanges the chunks of the heap for the new ones.

ghost use Rattle.std.specs.Prelude.{◌≡◌, ◌+◌, ◌≤◌, ◌++◌, ◌∷◌, [], length, vec_len, vec_capacity, fold, filter, map, false};
ghost use Rattle.leaf_heap.specs.Counted.{AreCounted};
ghost use Rattle.leaf_heap.specs.LeafHeapValue.{exchanged, with_places, HaveDistinctNumbers, IsCurrent, IsReserved};
ghost use Rattle.copying_gc.specs.Survivors.{with_chunks};
ghost use Rattle.copying_gc.specs.Exchanged.{counted32, emptied, goes, last_place, with_birth_name, reserved_of, reserved_place, stays, unit_count, unreserved, CanName};

use crate::copying::SMALL;
use crate::lists::Survivor;
use crate::packed::counts_with;
use leaf_heap::{Counts, Space};
use object_layout::{Chunk, is_born_at, is_object_at, next_at};

// Whether the chunk holds a large object that was found.
fn has_found_large(chunk: &Chunk) -> bool
    ensures { result ≡ stays chunk.now }
{
    if chunk.used() == 0 {
        return false;
    }
    next_at(chunk, 0) > SMALL && !is_born_at(chunk, 0) && is_object_at(chunk, 0)
}

// Puts the chunks that stay after the new ones, and the others with those to release; returns whether any stays.
fn part(chunks: Vec<Chunk>, laid: &mut Vec<Chunk>, back: &mut Vec<Chunk>) -> bool
    requires laid { vec_len laid.old + vec_len chunks ≤ vec_capacity laid.old }
    requires back { vec_len back.old + vec_len chunks ≤ vec_capacity back.old }
    ensures laid { laid.new.items ≡ laid.old.items ++ filter stays chunks.items }
    ensures back { back.new.items ≡ back.old.items ++ map emptied (filter goes chunks.items) }
    ensures back_count { vec_len back.new ≤ vec_len back.old + vec_len chunks }
    ensures laid_count { vec_len laid.new ≤ vec_len laid.old + vec_len chunks }
    ensures laid_length { length laid.new.items ≤ length laid.old.items + length chunks.items }
    ensures laid_room { vec_capacity laid.new ≡ vec_capacity laid.old }
    ensures back_room { vec_capacity back.new ≡ vec_capacity back.old }
    ensures none { result ≡ false → filter stays chunks.items ≡ [] }
{
    let mut any = false;
    for mut chunk in chunks {
        if has_found_large(&chunk) {
            any = true;
            laid.push_reserved(chunk);
        } else {
            chunk.clear();
            back.push_reserved(chunk);
        }
    }
    any
}

// A number, saturating at 32 bits.
pub(crate) fn counted(n: u64) -> u32
    ensures { result ≡ counted32 n }
{
    if n > u32::MAX as u64 {
        u32::MAX
    } else {
        n as u32
    }
}

// The units of these chunks.
pub(crate) fn units_of(chunks: &[Chunk]) -> u32
    ensures { result ≡ counted32 (unit_count chunks.now) }
{
    let mut units = 0u32;
    for chunk in chunks {
        units = units.saturating_add(object_layout::units(chunk.size() as u64) as u32);
    }
    units
}

// The position of the last of these chunks.
fn place_of_last(chunks: &[Chunk]) -> Option<usize>
    ensures { result ≡ last_place chunks.now }
{
    if chunks.is_empty() {
        None
    } else {
        Some(chunks.len() - 1)
    }
}

// Gives a survivor that is in the heap its birth name back.
fn name(heap: &mut Space, survivor: Survivor)
    requires { CanName heap.old.chunks (survivor ∷ []) }
    ensures { heap.new ≡ with_chunks heap.old (with_birth_name heap.old.chunks survivor) }
{
    if heap.owns(survivor.old) {
        heap.own_set_birth(survivor.old, survivor.birth);
    }
}

// Gives the survivors that are in the heap their birth names back.
fn name_all(heap: &mut Space, found: &[Survivor])
    requires { CanName heap.old.chunks found.now }
    ensures { heap.new ≡ with_chunks heap.old (fold with_birth_name heap.old.chunks found.now) }
{
    for &survivor in found {
        name(heap, survivor);
    }
}

/// Gives the large survivors, if there are any, their birth names back.
pub fn name_larges(heap: &mut Space, found: &[Survivor], are_large: bool)
    requires can { CanName heap.old.chunks found.now }
    requires none { are_large ≡ false → fold with_birth_name heap.old.chunks found.now ≡ heap.old.chunks }
    ensures { heap.new ≡ with_chunks heap.old (fold with_birth_name heap.old.chunks found.now) }
{
    if are_large {
        name_all(heap, found);
    }
}

// Puts these chunks in, with their counts: those made while copying, unless there are large objects among them.
fn put_counted(
    heap: &mut Space,
    chunks: Vec<Chunk>,
    counts: Counts,
    are_large: bool,
    current: Option<usize>,
    reserved: Option<usize>,
)
    requires apart { HaveDistinctNumbers chunks.items }
    requires counted { are_large ≡ false → AreCounted chunks.items counts }
    requires current { IsCurrent chunks.items current }
    requires reserved { IsReserved chunks.items reserved }
    requires spare { length chunks.items ≤ heap.old.spare }
    ensures { heap.new ≡ with_places (exchanged heap.old chunks.items current reserved) heap.new.slots heap.new.spare }
{
    let held = counts_with(&chunks, counts, are_large);
    heap.put_chunks(chunks, held, current, reserved);
}

/// Takes the old chunks out, and puts in the new ones with their counts, those of large objects that were found, and
/// the reserved one. Returns whether there are any of large objects.
pub fn exchange(
    heap: &mut Space,
    mut laid: Vec<Chunk>,
    counts: Counts,
    reserved: Option<usize>,
    back: &mut Vec<Chunk>,
) -> bool
    requires place { reserved ≡ heap.old.reserved }
    requires empty { IsReserved heap.old.chunks reserved }
    requires apart { HaveDistinctNumbers (laid.items ++ (filter stays (unreserved heap.old.chunks reserved) ++ reserved_of heap.old.chunks reserved)) }
    requires counted { AreCounted laid.items counts }
    requires small { IsCurrent laid.items (last_place laid.items) }
    requires laid { vec_len laid + length heap.old.chunks ≤ vec_capacity laid }
    requires back { vec_len back.old + length heap.old.chunks ≤ vec_capacity back.old }
    requires spare { length laid.items ≤ heap.old.spare }
    ensures heap { let kept = filter stays (unreserved heap.old.chunks reserved) in heap.new ≡ with_places (exchanged heap.old (laid.items ++ (kept ++ reserved_of heap.old.chunks reserved)) (last_place laid.items) (reserved_place (length laid.items + length kept) reserved)) heap.new.slots heap.new.spare }
    ensures back { back.new.items ≡ back.old.items ++ map emptied (filter goes (unreserved heap.old.chunks reserved)) }
    ensures back_count { vec_len back.new ≤ vec_len back.old + length heap.old.chunks }
    ensures back_room { vec_capacity back.new ≡ vec_capacity back.old }
    ensures none { result ≡ false → filter stays (unreserved heap.old.chunks reserved) ≡ [] }
{
    let current = place_of_last(&laid);
    let mut old = heap.take_chunks();
    match reserved {
        None => {
            let any = part(old, &mut laid, back);
            put_counted(heap, laid, counts, any, current, None);
            any
        }
        Some(i) => {
            let kept = old.remove(i);
            let any = part(old, &mut laid, back);
            let place = laid.len();
            laid.push_reserved(kept);
            put_counted(heap, laid, counts, any, current, Some(place));
            any
        }
    }
}
