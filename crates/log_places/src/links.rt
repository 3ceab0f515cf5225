// Links from page to page of a block.

ghost use Rattle.std.specs.Prelude.{◌≡◌, ◌==◌, ◌<◌, ℕ, IfOk, OnOk, Some, None, length, slice_get, nat_eq, if◌then◌else◌};
ghost use Rattle.std.specs.HashMap.{get};
ghost use Rattle.log_places.specs.Blocks.{ArePageLinks};

use crate::page::PageKey;
use indexmap::IndexSet;
use plain_vec::Listed;
use std::alloc::{AllocError, Global};
use std::collections::HashMap;

/// The place of each block's first page, and for each page the place of the next one of its block.
#[derive(Drop)]
pub struct PageLinks {
    pub(crate) heads: HashMap<u64, usize>,
    pub(crate) nexts: Listed<Option<usize>>,
}

/// The page at a place.
pub(crate) fn key_at(known: &IndexSet<PageKey>, place: usize) -> PageKey
    requires { place < length known.now.keys }
    ensures { slice_get known.now.keys place ≡ Some result }
{
    match known.get_index(place) {
        Some(key) => *key,
        None => unreachable!(),
    }
}

// A page of a block comes before all others; the place of the one that was first.
fn put_first(
    heads: &mut HashMap<u64, usize>,
    block: u64,
    place: usize,
) -> Result<Option<usize>, AllocError>
    ensures old { IfOk result (λ old. old ≡ get nat_eq heads.old block) }
    ensures new { OnOk result ((b : ℕ) → get nat_eq heads.new b ≡ (if block == b then Some place else get nat_eq heads.old b)) }
{
    Ok(heads.insert(block, place)?)
}

// No block has a page.
fn no_heads(alloc: Global) -> HashMap<u64, usize>
    ensures { (b : ℕ) → get nat_eq result b ≡ None }
{
    HashMap::new(alloc)
}

/// The links between the pages of each block.
pub(crate) fn links_of(alloc: Global, known: &IndexSet<PageKey>) -> Result<PageLinks, AllocError>
    ensures { IfOk result (ArePageLinks known.now.keys) }
{
    let mut heads = no_heads(alloc);
    let mut nexts = Listed::from_vec(vec![in alloc; None; known.len()]?);
    let mut place = known.len();
    while place > 0 {
        place -= 1;
        let key = key_at(known, place);
        let next = put_first(&mut heads, key.block, place)?;
        nexts.set(place, next);
    }
    Ok(PageLinks { heads, nexts })
}
