// What a join changes of the accounts of three heaps.

ghost use Rattle.std.specs.Prelude.{◌≡◌, ◌+◌, ◌<◌, ◌≤◌, ◌^◌, ◌++◌, [], length, IfOk, OnOk, OnErr, vec_len, vec_capacity};
ghost use Rattle.run_ledger.specs.declared.data.Ledger.{Ledger};
ghost use Rattle.run_ledger.specs.Heaps.{emptied, fresh, merged};
ghost use Rattle.run_ledger.specs.Steps.{join_heaps};
ghost use Rattle.ledger_heaps.specs.Accounts.{since_at};

use hh_model::Name;
use plain_vec::Listed;
use run_ledger::Heap;
use std::alloc::{AllocError, Global};
use std::mem;

/// The children of a task join it: its heap gets all that theirs hold, the left child's names first, then the right
/// one's, then its own; theirs become empty. If an allocation fails, nothing changes.
pub fn merge(
    alloc: Global,
    parent: &mut Heap,
    left: &mut Heap,
    right: &mut Heap,
) -> Result<(), AllocError>
    requires { parent.old.since + left.old.since + right.old.since < 2 ^ 64 }
    ensures parent { OnOk result (parent.new ≡ merged parent.old left.old right.old) }
    ensures left { OnOk result (left.new ≡ emptied left.old) }
    ensures right { OnOk result (right.new ≡ emptied right.old) }
    ensures parent_kept { OnErr result (parent.new ≡ parent.old) }
    ensures left_kept { OnErr result (left.new ≡ left.old) }
    ensures right_kept { OnErr result (right.new ≡ right.old) }
{
    let mut chunks = mem::replace(&mut left.chunks, Listed::new(alloc)).into_vec();
    let mut large = mem::replace(&mut left.large, Listed::new(alloc)).into_vec();
    if let Err(error) = make_room(&mut chunks, &mut large, parent, right) {
        left.chunks = Listed::from_vec(chunks);
        left.large = Listed::from_vec(large);
        return Err(error);
    }
    gather(alloc, chunks, &mut right.chunks, &mut parent.chunks);
    gather(alloc, large, &mut right.large, &mut parent.large);
    parent.since = parent.since + left.since + right.since;
    parent.marked = None;
    retire(left);
    retire(right);
    Ok(())
}

/// The account of a heap that holds nothing.
pub fn fresh(alloc: Global) -> Heap
    ensures { result ≡ fresh }
{
    Heap {
        chunks: Listed::new(alloc),
        large: Listed::new(alloc),
        reserved: 0,
        room: 0,
        since: 0,
        worker: None,
        begun: None,
        survivors: Listed::new(alloc),
        snapshot: Listed::new(alloc),
        marked: None,
        swept: false,
    }
}

/// Like `merge`, among the heaps of all tasks: `left` is the left child, and the right one is the next task.
pub fn join(
    alloc: Global,
    heaps: &mut Listed<Heap>,
    parent: u32,
    left: u32,
) -> Result<(), AllocError>
    requires order { parent < left }
    requires there { left + 1 < length heaps.old }
    requires since { since_at heaps.old parent + since_at heaps.old left + since_at heaps.old (left + 1) < 2 ^ 64 }
    ensures ok { OnOk result ((l : Ledger) → l.heaps ≡ heaps.old → join_heaps l parent left ≡ record l { heaps = heaps.new }) }
    ensures err { OnErr result (heaps.new ≡ heaps.old) }
{
    let mut first = mem::replace(heaps.at_mut(left as usize), fresh(alloc));
    let mut second = mem::replace(heaps.at_mut(left as usize + 1), fresh(alloc));
    let merged = merge(
        alloc,
        heaps.at_mut(parent as usize),
        &mut first,
        &mut second,
    );
    heaps.set(left as usize, first);
    heaps.set(left as usize + 1, second);
    merged?;
    Ok(())
}

// Reserves capacity in the left child's lists for the names of the other two heaps.
fn make_room(
    chunks: &mut Vec<Listed<Name>>,
    large: &mut Vec<Name>,
    parent: &Heap,
    right: &Heap,
) -> Result<(), AllocError>
    ensures chunks { chunks.new.items ≡ chunks.old.items }
    ensures large { large.new.items ≡ large.old.items }
    ensures chunk_room { OnOk result (vec_len chunks.new + length right.now.chunks + length parent.now.chunks ≤ vec_capacity chunks.new) }
    ensures large_room { OnOk result (vec_len large.new + length right.now.large + length parent.now.large ≤ vec_capacity large.new) }
{
    chunks.reserve(both(right.chunks.len(), parent.chunks.len())?)?;
    large.reserve(both(right.large.len(), parent.large.len())?)
}

// The sum of two lengths; an overflow counts as out of memory.
fn both(first: usize, second: usize) -> Result<usize, AllocError>
    ensures { IfOk result (λ count. count ≡ first + second) }
{
    first.checked_add(second).ok_or(AllocError)
}

// Puts the items of the first two in front of the last one's, which has capacity for all.
fn gather<T: Drop>(alloc: Global, front: Vec<T>, middle: &mut Listed<T>, back: &mut Listed<T>)
    requires { vec_len front + length middle.old + length back.old ≤ vec_capacity front }
    ensures all { back.new ≡ front.items ++ middle.old ++ back.old }
    ensures none { middle.new ≡ [] }
{
    let mut all = front;
    let mut own = mem::replace(back, Listed::new(alloc)).into_vec();
    let mut others = mem::replace(middle, Listed::new(alloc)).into_vec();
    let _others_fit = all.append(&mut others);
    let _own_fit = all.append(&mut own);
    *back = Listed::from_vec(all);
}

// The account of a child that has joined, without its names.
fn retire(heap: &mut Heap)
    requires chunks { heap.old.chunks ≡ [] }
    requires large { heap.old.large ≡ [] }
    ensures { heap.new ≡ emptied heap.old }
{
    heap.since = 0;
    heap.room = 0;
    heap.worker = None;
}
