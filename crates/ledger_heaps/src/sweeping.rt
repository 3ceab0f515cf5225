// The heap after a sweep.

ghost use Rattle.std.specs.Prelude.{◌≡◌, ◌<◌, ◌^◌, IfOk, OnOk, map, not, [], ◌∷◌, ◌++◌};
ghost use Rattle.std.specs.HashSet.{contains};
ghost use Rattle.hh_model.specs.declared.data.Name.{Name};
ghost use Rattle.run_ledger.specs.Reachable.{holds_name, is_name};
ghost use Rattle.plain_vec.specs.Members.{is_empty};
ghost use Rattle.run_ledger.specs.Heaps.{in_snapshot, is_last_empty, sweep_number, swept_heap, without_empty, words_in};
ghost use Rattle.ledger_heaps.specs.Parts.{with_swept};

use crate::names::{among, table_of};
use crate::sizes::units_sum;
use hh_model::{MachineState, Name};
use plain_vec::Listed;
use run_ledger::Heap;
use std::alloc::{AllocError, Global};
use std::collections::HashSet;

/// What a sweep leaves of a heap, and the number of its entry.
#[derive(Drop)]
pub struct Swept {
    /// The small names that were reachable at the fork, chunk by chunk.
    pub chunks: Listed<Listed<Name>>,
    /// The large ones.
    pub large: Listed<Name>,
    /// The words left in the last chunk.
    pub room: u32,
    /// The chunks released, in units.
    pub given: u64,
}

impl Swept {
    /// Puts the result into the heap's account: it is swept.
    pub fn put_into(self, heap: &mut Heap)
        ensures { heap.new ≡ with_swept heap.old self }
    {
        heap.chunks = self.chunks;
        heap.large = self.large;
        heap.room = self.room;
        heap.marked = None;
        heap.swept = true;
    }
}

#[tactic(auto, using(crate::proofs::Kept::snapshot_units, crate::proofs::Kept::large_units, crate::proofs::Kept::fewer_chunks))]
/// What a sweep leaves of a heap whose snapshot is marked.
pub fn sweep(alloc: Global, machine: &MachineState, heap: &Heap) -> Result<Swept, AllocError>
    requires { words_in machine.now heap.now < 2 ^ 62 }
    ensures heap { IfOk result (λ parts. with_swept heap.now parts ≡ swept_heap heap.now) }
    ensures number { IfOk result (λ parts. parts.given ≡ sweep_number machine.now heap.now) }
{
    let snapshot = table_of(alloc, heap.snapshot.as_slice())?;
    let Cleared {
        chunks,
        is_last_empty,
    } = clear(alloc, heap, &snapshot)?;
    let large = large_among(alloc, heap, &snapshot)?;
    let room = if is_last_empty { 0 } else { heap.room };
    let dropped = units_sum(machine, heap.large.as_slice()) - units_sum(machine, large.as_slice());
    let given = (heap.chunks.as_slice().len() - chunks.len()) as u64 + dropped;
    Ok(Swept {
        chunks,
        large,
        room,
        given,
    })
}

fn large_among(
    alloc: Global,
    heap: &Heap,
    snapshot: &HashSet<Name>,
) -> Result<Listed<Name>, AllocError>
    requires { (n : Name) → contains is_name snapshot.now n ≡ holds_name heap.now.snapshot n }
    ensures { IfOk result (λ names. names ≡ in_snapshot heap.now heap.now.large) }
{
    among(alloc, heap.large.as_slice(), snapshot)
}

// The chunks that keep a name, and whether the last one keeps none.
struct Cleared {
    chunks: Listed<Listed<Name>>,
    is_last_empty: bool,
}

#[tactic(auto, using(crate::proofs::Cleared::ends_last))]
// Drops the small names outside the snapshot, and the chunks without a name.
fn clear(alloc: Global, heap: &Heap, snapshot: &HashSet<Name>) -> Result<Cleared, AllocError>
    requires { (n : Name) → contains is_name snapshot.now n ≡ holds_name heap.now.snapshot n }
    ensures chunks { IfOk result (λ cleared. cleared.chunks ≡ without_empty (map (in_snapshot heap.now) heap.now.chunks)) }
    ensures last { IfOk result (λ cleared. cleared.is_last_empty ≡ is_last_empty (map (in_snapshot heap.now) heap.now.chunks)) }
{
    let mut chunks = Listed::new(alloc);
    let mut is_last_empty = false;
    for names in heap.chunks.as_slice() {
        let left = among(alloc, names.as_slice(), snapshot)?;
        is_last_empty = !push_filled(&mut chunks, left)?;
    }
    Ok(Cleared {
        chunks,
        is_last_empty,
    })
}

// Adds a list that has a name; returns whether it has one.
fn push_filled(chunks: &mut Listed<Listed<Name>>, names: Listed<Name>) -> Result<bool, AllocError>
    ensures chunks { OnOk result (chunks.new ≡ chunks.old ++ without_empty (names ∷ [])) }
    ensures filled { IfOk result (λ filled. filled ≡ not (is_empty names)) }
{
    if names.is_empty() {
        return Ok(false);
    }
    chunks.push(names)?;
    Ok(true)
}
