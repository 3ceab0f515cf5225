//! The owner's end of a deque, with a count of the pops that found the deque empty. Everything is proved for every
//! invariant that the deque may have. Only what a step guarantees is known of the invariant, so no body can return
//! None, or count, without looking.
ghost use Rattle.std.specs.Prelude.{◌≡◌, ◌<◌, ◌≤◌, ◌+◌, ◌∷◌, [], IfOk, IfErr, IfSome, IfNone, OnOk};
ghost use Rattle.crossbeam_deque.specs.Tasks.{Pushes, Pops, Finds, Blocks};
ghost use Rattle.crossbeam_deque.specs.Handles.{worker_flavor};
ghost use Rattle.saturating_counts.specs.Counts.{raised_by};

use crossbeam_deque::protocol::{Outcome, Protocol};
use crossbeam_deque::{Stealer, Worker};
use std::alloc::{AllocError, Global};

/// The owner's end of a deque, from which it takes back the newest.
#[derive(Drop)]
pub struct OwnDeque<V, P: Protocol<u32, V>> {
    worker: Worker<u32, Global, V, P>,
    empty_pops: u64,
    ghost newest_first: { worker_flavor worker ≡ 1 },
}

impl<V, P: Protocol<u32, V>> OwnDeque<V, P> {
    ghost use Rattle.steal_scheduler.specs.Ends.{IsStealerOf, owner_port, owner_view, slots, next_put, pops_of_none, SameOwner};

    /// A new deque with at least `least` slots.
    pub fn new(alloc: Global, least: usize) -> Result<OwnDeque<V, P>, AllocError>
        requires { P.holds [] (P.first ∷ []) }
        ensures { IfOk result (λ o. (0 < slots o) × (next_put o ≡ 0) × (owner_view o ≡ P.first) × (pops_of_none o ≡ 0)) }
    {
        let worker = Worker::lifo_as(alloc, least)?;
        Ok(OwnDeque {
            worker,
            empty_pops: 0,
        })
    }

    /// A handle to steal with.
    pub fn stealer(&self) -> Result<Stealer<u32, Global, V, P>, AllocError>
        ensures { IfOk result (λ s. IsStealerOf s self.now) }
    {
        self.worker.stealer()
    }

    /// How many pops found the deque empty.
    pub fn empty_pops(&self) -> u64
        ensures { result ≡ pops_of_none self.now }
    {
        self.empty_pops
    }

    /// Puts a number at the back. It is returned if the deque refuses.
    pub fn push<M: Outcome<u32, V>>(&mut self, task: u32) -> Result<(), u32>
        requires pushes { Pushes P.holds (owner_port self.old) (owner_view self.old) (task ∷ []) (M.then (owner_view self.old) (task ∷ [])) }
        requires full { Blocks P.holds (slots self.old) (owner_port self.old) (owner_view self.old) (M.full (owner_view self.old)) }
        ensures same { SameOwner self.old self.new }
        ensures counted { pops_of_none self.new ≡ pops_of_none self.old }
        ensures ok { OnOk result (M.then (owner_view self.old) (task ∷ []) (owner_view self.new) × (next_put self.new ≡ next_put self.old + 1)) }
        ensures err { IfErr result (λ x. (x ≡ task) × (owner_view self.new ≡ owner_view self.old) × (next_put self.new ≡ next_put self.old) × (slots self.old ≤ next_put self.old)) }
    {
        self.worker.push_as::<M>(task)
    }

    /// Takes back the newest number. None, with one more empty pop, only if some step of the call found the deque
    /// empty.
    pub fn pop<M: Outcome<u32, V>>(&mut self) -> Option<u32>
        requires pops { Pops P.holds (owner_port self.old) (owner_view self.old) (M.then (owner_view self.old)) }
        requires empty { Finds P.holds (owner_port self.old) (owner_view self.old) (M.empty (owner_view self.old)) }
        ensures same { SameOwner self.old self.new × (next_put self.new ≤ next_put self.old) }
        ensures some { IfSome result (λ x. M.then (owner_view self.old) (x ∷ []) (owner_view self.new) × (pops_of_none self.new ≡ pops_of_none self.old)) }
        ensures none { IfNone result ((owner_view self.new ≡ owner_view self.old) × M.empty (owner_view self.old) × (pops_of_none self.new ≡ raised_by (pops_of_none self.old) 1)) }
    {
        let popped = self.worker.pop_as::<M>();
        if popped.is_none() {
            self.empty_pops = self.empty_pops.saturating_add(1);
        }
        popped
    }
}
