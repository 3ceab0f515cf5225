// The heap after a leaf collection.

ghost use Rattle.std.specs.Prelude.{◌≡◌, ◌+◌, ◌-◌, ◌<◌, ◌^◌, [], IfOk, OnOk, length};
ghost use Rattle.run_ledger.specs.Heaps.{begun_in, by_birth, collected, end_numbers, lay, laid_onto, room_behind, units_sum, words_in, small_survivors, large_survivors};
ghost use Rattle.std.specs.HashSet.{contains};
ghost use Rattle.hh_model.specs.declared.data.Name.{Name};
ghost use Rattle.run_ledger.specs.Reachable.{holds_name, is_name};
ghost use Rattle.run_ledger.specs.Space.{last_words};
ghost use Rattle.ledger_heaps.specs.Parts.{with_collected};

use crate::names::{among, small_among, table_of};
use crate::placed::{push_list, put_last};
use crate::sizes::{CHUNK_WORDS, units_sum, words_at, words_sum};
use hh_model::{MachineState, Name};
use plain_vec::Listed;
use run_ledger::Heap;
use std::alloc::{AllocError, Global};
use std::collections::HashSet;

/// What a leaf collection leaves of a heap, and the numbers of the entry that ends it.
#[derive(Drop)]
pub struct Collected {
    /// The small survivors in order of birth, chunk by chunk.
    pub chunks: Listed<Listed<Name>>,
    /// The large survivors.
    pub large: Listed<Name>,
    /// The words left in the last chunk.
    pub room: u32,
    /// The new chunks.
    pub taken: u64,
    /// The chunks released, in units.
    pub given: u64,
    /// The words held.
    pub left: u64,
}

impl Collected {
    /// Puts the result into the heap's account: its leaf collection has ended.
    pub fn put_into(self, heap: &mut Heap)
        ensures { heap.new ≡ with_collected heap.old self }
    {
        heap.chunks = self.chunks;
        heap.large = self.large;
        heap.room = self.room;
        heap.since = 0;
        heap.begun = None;
    }
}

#[tactic(auto, using(crate::proofs::Kept::left_words, crate::proofs::Kept::small_bound, crate::proofs::Kept::large_bound))]
/// What the current leaf collection leaves of a heap.
pub fn collect(alloc: Global, machine: &MachineState, heap: &Heap) -> Result<Collected, AllocError>
    requires { words_in machine.now heap.now < 2 ^ 62 }
    ensures heap { IfOk result (λ parts. with_collected heap.now parts ≡ collected machine.now heap.now) }
    ensures numbers { IfOk result (λ parts. (parts.taken, parts.given, parts.left) ≡ end_numbers machine.now heap.now) }
{
    let survivors = table_of(alloc, heap.survivors.as_slice())?;
    let small = small_survivors(alloc, heap, &survivors)?;
    let large = large_survivors(alloc, heap, &survivors)?;
    let Laid { chunks, room } = lay_all(alloc, machine, small.as_slice())?;
    let taken = chunks.len() as u64;
    let given = given_back(machine, heap, &large, taken);
    let left = words_sum(machine, small.as_slice()) + words_sum(machine, large.as_slice());
    Ok(Collected {
        chunks,
        large,
        room,
        taken,
        given,
        left,
    })
}

// The small survivors in order of birth.
fn small_survivors(
    alloc: Global,
    heap: &Heap,
    survivors: &HashSet<Name>,
) -> Result<Listed<Name>, AllocError>
    requires { (n : Name) → contains is_name survivors.now n ≡ holds_name heap.now.survivors n }
    ensures { IfOk result (λ names. names ≡ small_survivors heap.now) }
{
    Ok(in_order_of_birth(small_among(alloc, heap, survivors)?))
}

fn large_survivors(
    alloc: Global,
    heap: &Heap,
    survivors: &HashSet<Name>,
) -> Result<Listed<Name>, AllocError>
    requires { (n : Name) → contains is_name survivors.now n ≡ holds_name heap.now.survivors n }
    ensures { IfOk result (λ names. names ≡ large_survivors heap.now) }
{
    among(alloc, heap.large.as_slice(), survivors)
}

// Names by task, then by count.
fn in_order_of_birth(names: Listed<Name>) -> Listed<Name>
    ensures { result ≡ by_birth names }
{
    let mut sorted = names.into_vec();
    sorted.sort_unstable();
    Listed::from_vec(sorted)
}

#[tactic(auto, using(crate::proofs::Kept::survivors_units, crate::proofs::Kept::large_units))]
// The chunks released, in units: the old ones, the new ones that weren't used, and those of the large objects that were
// dropped.
fn given_back(machine: &MachineState, heap: &Heap, large: &Listed<Name>, taken: u64) -> u64
    requires words { words_in machine.now heap.now < 2 ^ 62 }
    requires large { large.now ≡ large_survivors heap.now }
    ensures { result ≡ length heap.now.chunks + (begun_in heap.now - taken) + (units_sum machine.now heap.now.large - units_sum machine.now large.now) }
{
    let unused = (heap.begun.unwrap_or(0) as u64).saturating_sub(taken);
    let old = units_sum(machine, heap.large.as_slice());
    heap.chunks.as_slice().len() as u64 + unused + (old - units_sum(machine, large.as_slice()))
}

// Small names laid into chunks, and the words left in the last chunk.
struct Laid {
    chunks: Listed<Listed<Name>>,
    room: u32,
}

#[tactic(auto, using(crate::proofs::Laid::room_first, crate::proofs::Laid::room_last))]
// Names laid into chunks one after the other.
fn lay_all(alloc: Global, machine: &MachineState, names: &[Name]) -> Result<Laid, AllocError>
    ensures chunks { IfOk result (λ laid. laid.chunks ≡ laid_onto machine.now [] names.now) }
    ensures room { IfOk result (λ laid. laid.room ≡ room_behind machine.now laid.chunks) }
{
    let mut chunks = Listed::new(alloc);
    let mut last = 0;
    for name in names {
        last = lay(alloc, machine, &mut chunks, last, *name)?;
    }
    if chunks.is_empty() {
        return Ok(Laid { chunks, room: 0 });
    }
    let room = (CHUNK_WORDS as u64).saturating_sub(last) as u32;
    Ok(Laid { chunks, room })
}

#[tactic(auto, using(crate::proofs::Laid::lay_first, crate::proofs::Laid::lay_new, crate::proofs::Laid::lay_last, crate::proofs::Laid::last_new, run_ledger::proofs::Chunks::put_last_words))]
// Lays a name into the last list, if that leaves at most a chunk's words in it, otherwise into a new one. The words of
// the last list are updated.
fn lay(
    alloc: Global,
    machine: &MachineState,
    chunks: &mut Listed<Listed<Name>>,
    last: u64,
    name: Name,
) -> Result<u64, AllocError>
    requires last { last ≡ last_words machine.now chunks.old }
    requires small { last < 2 ^ 62 }
    ensures chunks { OnOk result (chunks.new ≡ lay machine.now chunks.old name) }
    ensures last { IfOk result (λ words. words ≡ last_words machine.now chunks.new) }
    ensures small { IfOk result (λ words. words < 2 ^ 62) }
{
    let words = words_at(machine, name) as u64;
    if chunks.is_empty() {
        push_list(alloc, chunks, name)?;
        return Ok(words);
    }
    if (CHUNK_WORDS as u64) < last + words {
        push_list(alloc, chunks, name)?;
        return Ok(words);
    }
    put_last(alloc, chunks, name)?;
    Ok(last + words)
}
