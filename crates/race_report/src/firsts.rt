// The accesses kept for a field: the first of each strand and kind.

ghost use Rattle.std.specs.Prelude.{◌≡◌, ◌∷◌, ◌++◌, [], false, OnOk};
ghost use Rattle.race_report.specs.Ways.{way_of, has_alike};

use crate::data::{FieldAccess, Seen};
use indexmap::IndexSet;
use std::alloc::{AllocError, Global};
use std::marker::Model;

// The strand of an access, whether it writes, and whether it is made by `cas`.
fn way_of(access: FieldAccess) -> ((u32, u32), (bool, bool))
    ensures { result ≡ way_of access }
{
    (
        (access.strand.task, access.strand.joins),
        (access.writes, access.swaps),
    )
}

/// Accesses in order, no two of one strand and kind.
#[derive(Drop)]
pub struct Firsts {
    list: Vec<Seen>,
    ways: IndexSet<((u32, u32), (bool, bool))>,
}

impl Model for Firsts {
    ghost use Rattle.std.specs.Prelude.{◌≡◌, List};
    ghost use Rattle.race_report.specs.declared.data.Seen.{Seen};
    ghost use Rattle.race_report.specs.Ways.{ways_of};

    ghost Value = { List Seen };

    ghost view = { λ f. f.list.items };

    ghost invariant = { λ f. f.ways.keys ≡ ways_of f.list.items };
}

impl Firsts {
    ghost use Rattle.std.specs.Prelude.{◌≡◌, ◌∷◌, ◌++◌, [], false, OnOk};
    ghost use Rattle.race_report.specs.Ways.{has_alike};

    pub(crate) fn new(alloc: Global) -> Firsts
        ensures { result ≡ [] }
    {
        Firsts {
            list: Vec::new(alloc),
            ways: IndexSet::new(alloc),
        }
    }

    /// All of them, in order.
    pub(crate) fn as_slice(&self) -> &[Seen]
        ensures { result.now ≡ self.now }
    {
        self.list.as_slice()
    }

    /// Whether there is one of this strand and kind.
    pub(crate) fn has_alike(&self, access: FieldAccess) -> bool
        ensures { result ≡ has_alike self.now access }
    {
        self.ways.contains(&way_of(access))
    }

    /// Appends the first access of its strand and kind.
    pub(crate) fn push(&mut self, seen: Seen) -> Result<(), AllocError>
        requires { has_alike self.old seen.access ≡ false }
        ensures { OnOk result (self.new ≡ self.old ++ seen ∷ []) }
    {
        self.list.reserve(1)?;
        self.ways.insert(way_of(seen.access))?;
        self.list.push_reserved(seen);
        Ok(())
    }
}
