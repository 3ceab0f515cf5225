// The shared value, and what each worker owes.

ghost use Rattle.std.specs.Prelude.{◌≡◌, IfOk, true};
ghost use Rattle.run_statistics.specs.below.run_ledger.{is_paced};

use run_statistics::{BoxedSlot, Counted, Listed, Pace, Shared};
use std::alloc::{AllocError, Global};
use std::marker::Model;

/// The shared value whose journal is paced: each entry gives what its worker owes to the collections of the heaps of
/// waiting tasks, or ends the run because the fuel is used up.
pub struct Paced {
    /// All of it is boxed, since it is moved out of the turn and back at each entry.
    pub(crate) pacer: BoxedSlot<Pacer>,
}

/// The shared value with the totals of its journal, and the record of each worker's entries.
pub(crate) struct Pacer {
    pub(crate) counted: Counted,
    pub(crate) paces: Listed<Pace>,
}

impl Drop for Pacer {
    fn drop(self) {
        let Pacer {
            counted: _,
            paces: _,
        } = self;
    }
}

impl Drop for Paced {
    fn drop(self) {
        let Paced { pacer: _ } = self;
    }
}

impl Model for Paced {
    ghost use Rattle.run_statistics.specs.below.core_invariant.{SharedValue};
    ghost use Rattle.gc_pacer.specs.Paces.{KeepsPaces};

    ghost Value = { SharedValue };

    ghost view = { λ p. p.pacer.counted };

    ghost invariant = { λ p. KeepsPaces p.pacer.counted p.pacer.paces };
}

impl Pacer {
    /// Boxes it. If the allocation fails it is dropped.
    pub(crate) fn boxed(self, alloc: Global) -> Result<BoxedSlot<Pacer>, AllocError>
        ensures { IfOk result (λ p. p ≡ self) }
    {
        Ok(BoxedSlot::new(alloc, self)?)
    }

    // The shared value alone, with the totals of its journal.
    fn into_counted(self) -> Counted
        ensures { result ≡ self.counted }
    {
        let Pacer { counted, paces: _ } = self;
        counted
    }
}

impl Paced {
    /// The shared value alone, with the totals of its journal.
    pub fn into_shared(self) -> Counted
        ensures same { result ≡ self }
        ensures paced { is_paced result.program result.settings result.journal.items ≡ true }
    {
        let Paced { pacer } = self;
        pacer.into_inner().into_counted()
    }

    /// The shared value, to be read.
    pub fn shared(&self) -> &Shared
        ensures { result.now ≡ self.now }
    {
        self.pacer.get().counted.shared()
    }
}
