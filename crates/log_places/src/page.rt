// The locations of a page that are accessed.

ghost use Rattle.std.specs.Prelude.{◌≡◌};

use crate::stretch::{Stretch, mark};
use std::alloc::{AllocError, Global};
use std::marker::Model;

/// How many locations a page has.
pub(crate) const PAGE_SIZE: u64 = 4096;

/// A page of a block, by its number.
#[derive(Clone, Copy, PartialEq, Eq, Hash)]
pub struct PageKey {
    pub block: u64,
    pub page: u64,
}

/// The stretches of a page, in ascending order.
#[derive(Drop)]
pub struct Page {
    stretches: Vec<Stretch>,
}

impl Model for Page {
    ghost use Rattle.std.specs.Prelude.{List};
    ghost use Rattle.log_places.specs.declared.stretch.Stretch.{Stretch};
    ghost use Rattle.log_places.specs.Stretches.{Ascending};

    ghost Value = { List Stretch };

    ghost view = { λ p. p.stretches.items };

    ghost invariant = { λ p. Ascending 0 p.stretches.items };
}

impl Page {
    ghost use Rattle.std.specs.Prelude.{◌≡◌, ◌<◌, [], OnOk, OnErr};
    ghost use Rattle.log_places.specs.Stretches.{marked, Ascending};

    /// A page that isn't accessed yet.
    pub(crate) fn new(alloc: Global) -> Page
        ensures { result ≡ [] }
    {
        Page {
            stretches: Vec::new(alloc),
        }
    }

    /// Its stretches, in ascending order.
    pub(crate) fn stretches(&self) -> &[Stretch]
        ensures value { result.now ≡ self.now }
        ensures order { Ascending 0 self.now }
    {
        &self.stretches
    }

    /// Marks the locations from `start` up to `end`: each stretch then has all of them or none. `spare` is room to work
    /// in. On an `Err` no stretch has changed.
    pub(crate) fn mark(
        &mut self,
        spare: &mut Vec<Stretch>,
        start: u16,
        end: u16,
    ) -> Result<(), AllocError>
        requires { start < end }
        ensures ok { OnOk result (self.new ≡ marked start end self.old) }
        ensures err { OnErr result (self.new ≡ self.old) }
        ensures order { Ascending 0 self.old }
    {
        mark(&mut self.stretches, spare, start, end)
    }
}
