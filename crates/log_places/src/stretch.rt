// The stretches of a page.

ghost use Rattle.std.specs.Prelude.{◌≡◌, ◌≤◌, ◌<◌, ◌++◌, ℕ, length, take, insert, slice_get, slice_index_or, vec_len, Some, IfSome, IfNone, OnOk, OnErr};
ghost use Rattle.log_places.specs.Stretches.{marked, piece, pieces, rest_from, tiles, is_gap, Ascending, Has};
ghost use Rattle.plain_vec.specs.Members.{In};

use crate::page::PAGE_SIZE;
use std::alloc::AllocError;

/// Locations of a page, from `start` up to `end`, which isn't one of them.
#[derive(Clone, Copy)]
pub struct Stretch {
    pub start: u16,
    pub end: u16,
}

// Adds the locations from `start` up to `end` as a stretch, if there are any.
fn push_piece(stretches: &mut Vec<Stretch>, start: u16, end: u16) -> Result<(), AllocError>
    ensures ok { OnOk result (stretches.new.items ≡ stretches.old.items ++ piece start end) }
{
    if start < end {
        stretches.push(Stretch { start, end })?;
    }
    Ok(())
}

// Adds a stretch, cut where the locations from `start` up to `end` begin and end, behind those of them that lie before
// it.
fn push_pieces(
    stretches: &mut Vec<Stretch>,
    start: u16,
    end: u16,
    stretch: Stretch,
) -> Result<(), AllocError>
    ensures ok { OnOk result (stretches.new.items ≡ stretches.old.items ++ pieces start end stretch) }
{
    push_piece(stretches, start, end.min(stretch.start))?;
    push_piece(stretches, stretch.start, start.min(stretch.end))?;
    push_piece(stretches, start.max(stretch.start), end.min(stretch.end))?;
    push_piece(stretches, end.max(stretch.start), stretch.end)
}

// Adds stretches, with the locations from `start` up to `end` marked.
fn push_marked(
    into: &mut Vec<Stretch>,
    stretches: &[Stretch],
    start: u16,
    end: u16,
) -> Result<(), AllocError>
    ensures ok { OnOk result (into.new.items ≡ into.old.items ++ marked start end stretches.now) }
{
    let mut from = start;
    for stretch in stretches {
        push_pieces(into, from, end, *stretch)?;
        from = from.max(end.min(stretch.end));
    }
    push_piece(into, from, end)
}

// Whether the locations from `start` up to `end` are just the first of these stretches.
fn tiles(stretches: &[Stretch], start: u16, end: u16) -> bool
    ensures { result ≡ tiles start end stretches.now }
{
    let mut from = start;
    for stretch in stretches {
        if end <= from {
            return true;
        }
        if stretch.start != from || end < stretch.end {
            return false;
        }
        from = stretch.end;
    }
    end <= from
}

/// A stretch is looked for among so many ones before and behind the place that it has if stretches lie evenly.
const NEAR: usize = 16;

// The place of the stretch that has a location, if stretches lie evenly over the page.
fn even_place(count: usize, location: u16) -> usize {
    count.saturating_mul(location as usize) / PAGE_SIZE as usize
}

// So many stretches, if the one behind them ends no later than a location; else none.
fn ended_first(stretches: &[Stretch], count: usize, location: u16) -> usize
    requires { Ascending 0 stretches.now }
    ensures fewer { result ≤ count }
    ensures within { result ≤ length stretches.now }
    ensures ended { (k : ℕ) (d : Stretch) → k < result → (slice_index_or stretches.now k d).end ≤ location }
{
    if count < stretches.len() && stretches[count].end <= location {
        count
    } else {
        0
    }
}

// A place from `low` on whose stretch ends behind a location: the given one, or that behind all stretches.
fn place_behind(stretches: &[Stretch], low: usize, place: usize, location: u16) -> usize
    requires order { low ≤ place }
    requires within { low ≤ length stretches.now }
    ensures order { low ≤ result }
    ensures within { result ≤ length stretches.now }
    ensures next { (d : Stretch) → result < length stretches.now → location < (slice_index_or stretches.now result d).end }
{
    if place < stretches.len() && location < stretches[place].end {
        place
    } else {
        stretches.len()
    }
}

// Places between which the first stretch lies that ends behind a location: near ones, if stretches lie about evenly.
fn bounds(stretches: &[Stretch], location: u16) -> (usize, usize)
    requires { Ascending 0 stretches.now }
    ensures order { result.0 ≤ result.1 }
    ensures within { result.1 ≤ length stretches.now }
    ensures ended { (k : ℕ) (d : Stretch) → k < result.0 → (slice_index_or stretches.now k d).end ≤ location }
    ensures next { (d : Stretch) → result.1 < length stretches.now → location < (slice_index_or stretches.now result.1 d).end }
{
    let place = even_place(stretches.len(), location);
    let low = ended_first(stretches, place.saturating_sub(NEAR), location);
    let high = place_behind(stretches, low, place.saturating_add(NEAR), location);
    (low, high)
}

/// How many of the stretches end no later than a location.
pub(crate) fn ended(stretches: &[Stretch], location: u16) -> usize
    requires { Ascending 0 stretches.now }
    ensures within { result ≤ length stretches.now }
    ensures ended { (k : ℕ) (d : Stretch) → k < result → (slice_index_or stretches.now k d).end ≤ location }
    ensures next { (d : Stretch) → result < length stretches.now → location < (slice_index_or stretches.now result d).end }
{
    let (first, last) = bounds(stretches, location);
    let mut low = first;
    let mut high = last;
    while low < high {
        let middle = low + (high - low) / 2;
        if stretches[middle].end <= location {
            low = middle + 1;
        } else {
            high = middle;
        }
    }
    low
}

// The stretch at a place.
fn stretch_at(stretches: &[Stretch], place: usize) -> Option<Stretch>
    ensures { result ≡ slice_get stretches.now place }
{
    stretches.get(place).copied()
}

/// The stretch that has a location, and its place.
pub(crate) fn stretch_with(stretches: &[Stretch], location: u16) -> Option<(usize, Stretch)>
    requires { Ascending 0 stretches.now }
    ensures some { IfSome result (λ r. (slice_get stretches.now r.0 ≡ Some r.1) × Has r.1 location) }
    ensures none { IfNone result ((s : Stretch) → In stretches.now s → Has s location → ⊥) }
{
    let place = ended(stretches, location);
    let stretch = stretch_at(stretches, place)?;
    if stretch.start <= location {
        return Some((place, stretch));
    }
    None
}

// Whether all locations up to `end` lie before these stretches.
fn is_gap(stretches: &[Stretch], end: u16) -> bool
    ensures { result ≡ is_gap end stretches.now }
{
    match stretches.first() {
        Some(next) => end <= next.start,
        None => true,
    }
}

// Puts a stretch behind so many first ones.
fn insert(stretches: &mut Vec<Stretch>, place: usize, stretch: Stretch) -> Result<(), AllocError>
    requires { place ≤ vec_len stretches.old }
    ensures ok { OnOk result (stretches.new.items ≡ insert stretches.old.items place stretch) }
    ensures err { OnErr result (stretches.new.items ≡ stretches.old.items) }
{
    stretches.insert(place, stretch)?;
    Ok(())
}

/// Marks the locations from `start` up to `end`: each stretch is then within them or apart from them. `spare` is empty
/// room to work in. On an `Err` no stretch has changed.
pub(crate) fn mark(
    stretches: &mut Vec<Stretch>,
    spare: &mut Vec<Stretch>,
    start: u16,
    end: u16,
) -> Result<(), AllocError>
    requires order { Ascending 0 stretches.old.items }
    requires some { start < end }
    ensures ok { OnOk result (stretches.new.items ≡ marked start end stretches.old.items) }
    ensures err { OnErr result (stretches.new.items ≡ stretches.old.items) }
{
    let kept = ended(stretches, start);
    if is_gap(&stretches[kept..], end) {
        return insert(stretches, kept, Stretch { start, end });
    }
    let rest = &stretches[kept..];
    if tiles(rest, start, end) {
        return Ok(());
    }
    spare.clear();
    push_marked(spare, rest, start, end)?;
    put_behind(stretches, kept, spare)
}

// Puts others behind so many first stretches, in the place of those that are there.
fn put_behind(
    stretches: &mut Vec<Stretch>,
    kept: usize,
    others: &[Stretch],
) -> Result<(), AllocError>
    requires { kept ≤ vec_len stretches.old }
    ensures ok { OnOk result (stretches.new.items ≡ take kept stretches.old.items ++ others.now) }
    ensures err { OnErr result (stretches.new.items ≡ stretches.old.items) }
{
    stretches.reserve(others.len())?;
    stretches.truncate(kept);
    stretches.extend_from_slice(others)
}
