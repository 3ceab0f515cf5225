// The count of the chunks in use, which is cached beside the accounts: how an entry changes it.

ghost use Rattle.std.specs.Prelude.{◌≡◌, ◌+◌, ◌-◌, ◌<◌, ◌^◌, length};
ghost use Rattle.run_ledger.specs.Heaps.{heap_of, begun_in};
ghost use Rattle.run_accounts.specs.Accounts.{places_in, used_by};

use crate::accounts::Accounts;
use chunk_sizes::units;
use hh_model::Name;
use ledger_heaps::{Collected, Swept, words_at};

impl<'p> Accounts<'p> {
    /// The chunks in use for the heap, except those of large objects.
    pub(crate) fn places(&self, task: u32) -> u64
        ensures value { result ≡ places_in (heap_of self.now.ledger task) }
        ensures fits { result < 2 ^ 63 }
    {
        match self.heap(task) {
            Some(heap) => {
                heap.chunks.as_slice().len() as u64
                    + heap.reserved as u64
                    + heap.begun.unwrap_or(0) as u64
            }
            None => 0,
        }
    }

    /// Updates the count for the heap's chunks, except those of large objects, of which there were `before`.
    pub(crate) fn count_places(&mut self, task: u32, before: u64)
        requires { self.old.used < 2 ^ 20 }
        ensures { self.new ≡ record self.old { used = self.old.used + places_in (heap_of self.old.ledger task) - before } }
    {
        self.used = (self.used + self.places(task)).saturating_sub(before);
    }

    /// A large object is placed, and no chunk of `reserved` units is reserved for it any more.
    pub(crate) fn count_large(&mut self, large: Option<Name>, reserved: u32)
        requires { self.old.used < 2 ^ 20 }
        ensures { self.new ≡ record self.old { used = used_by self.old.used reserved self.old.ledger.machine large } }
    {
        if let Some(name) = large {
            let units = units(words_at(self.machine.state(), name) as u64);
            self.used = self.used.saturating_sub(reserved as u64) + units;
        }
    }

    /// The heap's leaf collection is to end, with this result.
    pub(crate) fn count_collected(&mut self, task: u32, parts: &Collected)
        requires { self.old.used < 2 ^ 20 }
        ensures { self.new ≡ record self.old { used = self.old.used + (length parts.now.chunks - begun_in (heap_of self.old.ledger task)) - parts.now.given } }
    {
        let begun = match self.heap(task) {
            Some(heap) => heap.begun.unwrap_or(0),
            None => 0,
        };
        let more = (parts.chunks.as_slice().len() as u64).saturating_sub(begun as u64);
        self.used = (self.used + more).saturating_sub(parts.given);
    }

    /// The heap is to be swept, with this result.
    pub(crate) fn count_swept(&mut self, parts: &Swept)
        ensures { self.new ≡ record self.old { used = self.old.used - parts.now.given } }
    {
        self.used = self.used.saturating_sub(parts.given);
    }
}
