// When a leaf collection of a part is due, and how many chunks it takes.

ghost use Rattle.std.specs.Prelude.{◌≡◌, ◌≤◌, ◌^◌};
ghost use Rattle.core_invariant.specs.Due.{due_cause, take_by};

use core_invariant::{CHUNK_WORDS, Private, Refused};

/// How many chunks a leaf collection takes for small objects of `words` words.
pub fn chunks_for(words: u64) -> u64
    ensures take { result ≡ take_by words }
    ensures few { result ≤ 2 ^ 56 }
{
    let full = words / CHUNK_WORDS;
    let rest = words % CHUNK_WORDS;
    let units = if rest == 0 { full } else { full + 1 };
    if units == 0 { 1 } else { 2 * units - 1 }
}

/// Why a leaf collection of a part neither begins nor is put off.
pub fn due_cause(part: &Private, words: Option<u32>) -> Option<Refused>
    ensures { result ≡ due_cause part.now words }
{
    if part.begun.is_some() {
        return Some(Refused::Collecting);
    }
    let since = part.heap.since();
    match words {
        None => Some(Refused::NotDue(since)),
        Some(_) => {
            if part.leaf_limit <= since {
                None
            } else {
                Some(Refused::NotDue(since))
            }
        }
    }
}
