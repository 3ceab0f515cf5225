// In which heaps blocks are when a strand acts.

ghost use Rattle.std.specs.Prelude.{◌≡◌, ◌==◌, ◌<◌, length};
ghost use Rattle.log_walk.specs.Tables.{task_at};
ghost use Rattle.log_births.specs.Checks.{LinesAreWithin};
ghost use Rattle.log_heaps.specs.Homes.{IsHomeAt, IsHomeAfter, is_higher, LeadsDownIf, foreign};

use log_births::BlockLines;
use log_walk::SerialWalk;

// The depth of the heap in which a block that was born at one place is at another: that of the lowest common ancestor.
fn home_after(walk: &SerialWalk, birth: usize, place: usize) -> Option<u32>
    requires birth { birth < length walk.now.order }
    requires place { place < length walk.now.order }
    ensures { IsHomeAfter walk.now birth place result }
{
    if !walk.precedes(birth, place) {
        return None;
    }
    let exit = walk.exit(birth, place);
    Some(walk.depth(exit))
}

// The depth of the heap in which a block is: the root's, if nobody bears it.
fn home(walk: &SerialWalk, births: &BlockLines, block: u64, place: usize) -> Option<u32>
    requires place { place < length walk.now.order }
    requires within { LinesAreWithin walk.now births.now }
    ensures { IsHomeAt walk.now births.now block place result }
{
    match births.line(block) {
        None => Some(0),
        Some(birth) => home_after(walk, birth.place, place),
    }
}

fn is_higher(upper: Option<u32>, lower: Option<u32>) -> bool
    ensures { result ≡ is_higher upper lower }
{
    match (upper, lower) {
        (Some(upper), Some(lower)) => upper < lower,
        _ => false,
    }
}

/// Whether a reference from a block to another leads down.
pub(crate) fn leads_down(
    walk: &SerialWalk,
    births: &BlockLines,
    block: u64,
    target: u64,
    place: usize,
) -> bool
    requires place { place < length walk.now.order }
    requires within { LinesAreWithin walk.now births.now }
    ensures { LeadsDownIf walk.now births.now block target place result }
{
    let upper = home(walk, births, block, place);
    let lower = home(walk, births, target, place);
    is_higher(upper, lower)
}

// Whether two places are of one task.
fn are_of_one_task(walk: &SerialWalk, first: usize, second: usize) -> bool
    requires first { first < length walk.now.order }
    requires second { second < length walk.now.order }
    ensures { result ≡ (task_at walk.now.order first == task_at walk.now.order second) }
{
    let order = walk.order();
    order[first].task == order[second].task
}

/// The block, if another task bears it than that of the place.
pub(crate) fn foreign(
    walk: &SerialWalk,
    births: &BlockLines,
    block: Option<u64>,
    place: usize,
) -> Option<u64>
    requires place { place < length walk.now.order }
    requires within { LinesAreWithin walk.now births.now }
    ensures { result ≡ foreign walk.now.order births.now place block }
{
    let block = block?;
    let birth = births.line(block)?;
    if are_of_one_task(walk, birth.place, place) {
        None
    } else {
        Some(block)
    }
}
