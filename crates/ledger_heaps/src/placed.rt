// What an allocation and a join change of a heap's account.

ghost use Rattle.std.specs.Prelude.{◌≡◌, ◌+◌, ◌<◌, ◌^◌, [], ◌∷◌, ◌++◌, OnOk, OnErr};
ghost use Rattle.run_ledger.specs.Heaps.{with_allocation, put_last};

use crate::sizes::CHUNK_WORDS;
use hh_model::Name;
use plain_vec::Listed;
use run_ledger::Heap;
use std::alloc::{AllocError, Global};

/// An allocation of `words` words: a small object's name takes room in the last chunk, a large one's the reserved
/// chunk.
pub fn place(alloc: Global, heap: &mut Heap, name: Name, words: usize) -> Result<(), AllocError>
    requires { heap.old.since + words < 2 ^ 64 }
    ensures ok { OnOk result (heap.new ≡ with_allocation heap.old name words) }
    ensures err { OnErr result (heap.new ≡ heap.old) }
{
    if words <= CHUNK_WORDS {
        put_last(alloc, &mut heap.chunks, name)?;
        heap.room = heap.room.saturating_sub(words as u32);
    } else {
        heap.large.push(name)?;
        heap.reserved = 0;
    }
    heap.since += words as u64;
    Ok(())
}

#[tactic(auto, using(hh_model::proofs::Lists::set_got, crate::proofs::Lists::put_last_at))]
/// Adds a name at the end of the last list, or in a list of its own if there is none.
pub fn put_last(
    alloc: Global,
    chunks: &mut Listed<Listed<Name>>,
    name: Name,
) -> Result<(), AllocError>
    ensures ok { OnOk result (chunks.new ≡ put_last chunks.old name) }
    ensures err { OnErr result (chunks.new ≡ chunks.old) }
{
    let count = chunks.len();
    if count == 0 {
        push_list(alloc, chunks, name)
    } else {
        chunks.at_mut(count - 1).push(name)
    }
}

/// Adds a name in a list of its own.
pub(crate) fn push_list(
    alloc: Global,
    chunks: &mut Listed<Listed<Name>>,
    name: Name,
) -> Result<(), AllocError>
    ensures ok { OnOk result (chunks.new ≡ chunks.old ++ (name ∷ []) ∷ []) }
    ensures err { OnErr result (chunks.new ≡ chunks.old) }
{
    let mut names = Listed::new(alloc);
    names.push(name)?;
    chunks.push(names)
}
