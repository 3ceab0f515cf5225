// The buffers from which a marking takes its lists and its table, and to which it returns them.

ghost use Rattle.std.specs.Prelude.{◌≡◌, ◌≤◌, ◌^◌, false};
ghost use Rattle.std.specs.HashSet.{contains};
ghost use Rattle.object_layout.specs.declared.word.Addr.{Addr};
ghost use Rattle.mark_sweep_gc.specs.MarkingValue.{has_address, same_address};

use object_layout::{Addr, Chunk};
use std::alloc::Global;
use std::collections::HashSet;
use std::marker::Model;

// Buffers with capacity for more objects are dropped.
const MOST_PLACES: usize = 1_048_576;

/// Empty lists and an empty table that are kept from one marking for the next. Contracts see the capacity of its list
/// of objects.
#[derive(Drop)]
pub struct MarkingRoom {
    pub(crate) found: Vec<Addr>,
    pub(crate) known: HashSet<Addr>,
    pub(crate) left: Vec<Chunk>,
}

impl Model for MarkingRoom {
    ghost use Rattle.std.specs.Prelude.{◌≡◌, ℕ, [], false, vec_capacity};
    ghost use Rattle.std.specs.HashSet.{contains};
    ghost use Rattle.object_layout.specs.declared.word.Addr.{Addr};
    ghost use Rattle.mark_sweep_gc.specs.MarkingValue.{same_address};

    ghost Value = { ℕ };

    ghost view = { λ r. vec_capacity r.found };

    ghost invariant = { λ r. (r.found.items ≡ []) × ((a : Addr) → contains same_address r.known a ≡ false) };
}

impl MarkingRoom {
    /// Buffers without capacity.
    pub fn new(alloc: Global) -> MarkingRoom
        ensures { result ≤ 2 ^ 20 }
    {
        MarkingRoom {
            found: Vec::new(alloc),
            known: HashSet::new(alloc),
            left: Vec::new(alloc),
        }
    }

    // Buffers made of these lists and this table, emptied. If they have capacity for more than 1,048,576 objects they
    // are dropped, and replaced by ones without capacity.
    pub(crate) fn emptied(found: Vec<Addr>, known: HashSet<Addr>, left: Vec<Chunk>) -> MarkingRoom
        requires { (a : Addr) → contains same_address known a ≡ has_address found.items a }
        ensures { result ≤ 2 ^ 20 }
    {
        if found.capacity() > MOST_PLACES {
            return MarkingRoom::new(*found.allocator());
        }
        let mut found = found;
        let mut known = known;
        take_out(&mut known, &found);
        found.clear();
        MarkingRoom { found, known, left }
    }
}

// Removes all addresses from the table, which has exactly these. If they fill more than an eighth of its capacity, it
// is cleared as a whole.
fn take_out(known: &mut HashSet<Addr>, found: &[Addr])
    requires { (a : Addr) → contains same_address known.old a ≡ has_address found.now a }
    ensures { (a : Addr) → contains same_address known.new a ≡ false }
{
    if found.len() > known.capacity() / 8 {
        known.clear();
        return;
    }
    for address in found {
        let _ = known.remove(address);
    }
}
