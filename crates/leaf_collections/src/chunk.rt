// How large a chunk a part gets, and why it gets none.

ghost use Rattle.std.specs.Prelude.{◌≡◌, ◌<◌, ◌^◌, IfSome};
ghost use Rattle.core_invariant.specs.below.run_ledger.{chunk_units};
ghost use Rattle.core_invariant.specs.Causes.{chunk_cause};

use core_invariant::{CHUNK_WORDS, Private, Refused, units};

/// How many units a chunk for an object of `words` words has.
pub fn units_for(words: Option<u32>) -> u32
    requires { IfSome words (λ n. n < 2 ^ 22) }
    ensures units { result ≡ chunk_units words }
    ensures few { result < 2 ^ 22 }
    ensures some { 0 < result }
{
    match words {
        None => 1,
        Some(words) => {
            if words <= CHUNK_WORDS as u32 {
                1
            } else {
                units(words as u64) as u32
            }
        }
    }
}

/// Why no chunk is given to a part.
pub fn cause_by(part: &Private, words: Option<u32>) -> Option<Refused>
    ensures { result ≡ chunk_cause part.now words }
{
    if part.begun.is_some() {
        return Some(Refused::Collecting);
    }
    let Some(words) = words else {
        return Some(Refused::NotNeeded(part.heap.room()));
    };
    if part.leaf_limit <= part.heap.since() {
        return Some(Refused::Due(part.heap.since()));
    }
    if part.heap.has_place(words) {
        Some(Refused::NotNeeded(part.heap.room()))
    } else {
        None
    }
}
