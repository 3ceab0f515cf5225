// The numbers of references from heap to heap.

ghost use Rattle.std.specs.Prelude.{◌≡◌, [], length, OnOk, slice_get};
ghost use Rattle.heap_graph.specs.Overview.{links_at, with_link, with_link_to};

use indexmap::IndexMap;
use saturating_counts::raised_by;
use std::alloc::{AllocError, Global};
use std::marker::Model;

/// Counts of references from heap to heap, in the order in which the first of each was met.
#[derive(Drop)]
pub(crate) struct DrawnLinks {
    counts: IndexMap<(u64, u64), u64>,
}

impl Model for DrawnLinks {
    ghost use Rattle.std.specs.Prelude.{ℕ, List};

    ghost Value = { List ((ℕ × ℕ) × ℕ) };

    ghost view = { λ l. l.counts.entries };
}

impl DrawnLinks {
    /// No counts.
    pub(crate) fn new(alloc: Global) -> DrawnLinks
        ensures { result ≡ [] }
    {
        DrawnLinks {
            counts: IndexMap::new(alloc),
        }
    }

    // The number from a heap to a heap.
    fn at(&self, task: u64, other: u64) -> u64
        ensures { result ≡ links_at self.now task other }
    {
        match self.counts.get(&(task, other)) {
            None => 0,
            Some(count) => *count,
        }
    }

    // Counts one more.
    fn add(&mut self, task: u64, other: u64) -> Result<(), AllocError>
        ensures { OnOk result (self.new ≡ with_link self.old task other) }
    {
        let count = raised_by(self.at(task, other), 1);
        self.counts.insert((task, other), count)?;
        Ok(())
    }

    /// Counts one more, if the other heap is known.
    pub(crate) fn add_to(&mut self, task: u64, other: Option<u64>) -> Result<(), AllocError>
        ensures { OnOk result (self.new ≡ with_link_to self.old task other) }
    {
        match other {
            None => Ok(()),
            Some(other) => self.add(task, other),
        }
    }

    /// The number of pairs of heaps.
    pub(crate) fn len(&self) -> usize
        ensures { result ≡ length self.now }
    {
        self.counts.len()
    }

    /// The pair at an index, with its count.
    pub(crate) fn entry(&self, place: usize) -> Option<((u64, u64), u64)>
        ensures { result ≡ slice_get self.now place }
    {
        match self.counts.get_index(place) {
            None => None,
            Some((pair, count)) => Some((*pair, *count)),
        }
    }
}
