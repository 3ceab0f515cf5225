//! A deque from which a hand steals, with a count of the thefts that found at most one number there. As in `own_deque`,
//! everything is proved for every invariant that the deque may have.
ghost use Rattle.std.specs.Prelude.{◌≡◌, ◌∷◌, [], IfOk, IfSome, IfNone};
ghost use Rattle.crossbeam_deque.specs.Tasks.{Takes, FindsFew, Admits};
ghost use Rattle.crossbeam_deque.specs.Handles.{stealer_deque, IsPassOf};
ghost use Rattle.saturating_counts.specs.Counts.{raised_by};

use crossbeam_deque::protocol::{Outcome, Protocol};
use crossbeam_deque::{Pass, Steal, Stealer};
use std::alloc::{AllocError, Global};
use std::sync::Wait;

/// A deque from which a hand steals: a stealer, and the pass that records what was stolen.
#[derive(Drop)]
pub struct VictimDeque<V, P: Protocol<u32, V>> {
    stealer: Stealer<u32, Global, V, P>,
    pass: Pass<u32, V>,
    vain_thefts: u64,
    ghost fits: { IsPassOf (stealer_deque stealer) pass },
}

impl<V, P: Protocol<u32, V>> VictimDeque<V, P> {
    ghost use Rattle.steal_scheduler.specs.Ends.{StealsBy, thief_port, thief_view, thefts_of_none, SameThief};

    /// The deque of this stealer, from which nothing was stolen.
    pub fn new(stealer: &Stealer<u32, Global, V, P>) -> Result<VictimDeque<V, P>, AllocError>
        requires { Admits P.holds P.guest }
        ensures { IfOk result (λ v. StealsBy v stealer.now × (thief_view v ≡ P.guest) × (thefts_of_none v ≡ 0)) }
    {
        let stealer = stealer.clone()?;
        let pass = stealer.pass();
        Ok(VictimDeque {
            stealer,
            pass,
            vain_thefts: 0,
        })
    }

    /// How many thefts found at most one number.
    pub fn vain_thefts(&self) -> u64
        ensures { result ≡ thefts_of_none self.now }
    {
        self.vain_thefts
    }

    /// Takes the oldest number. None, with one more vain theft, only if some step of the call found at most one number.
    pub fn steal<M: Outcome<u32, V>, R: Wait>(&mut self, rt: &R) -> Option<u32>
        requires takes { Takes P.holds (thief_port self.old) (thief_view self.old) 1 (M.then (thief_view self.old)) }
        requires few { FindsFew P.holds 1 (thief_port self.old) (thief_view self.old) (M.empty (thief_view self.old)) }
        ensures same { SameThief self.old self.new }
        ensures some { IfSome result (λ x. M.then (thief_view self.old) (x ∷ []) (thief_view self.new) × (thefts_of_none self.new ≡ thefts_of_none self.old)) }
        ensures none { IfNone result ((thief_view self.new ≡ thief_view self.old) × M.empty (thief_view self.old) × (thefts_of_none self.new ≡ raised_by (thefts_of_none self.old) 1)) }
    {
        for _ in rt.forever() {
            match self.stealer.steal_as::<M>(&mut self.pass) {
                Steal::Success(task) => return Some(task),
                Steal::Empty => {
                    self.vain_thefts = self.vain_thefts.saturating_add(1);
                    return None;
                }
                Steal::Retry => {}
            }
        }
        unreachable!()
    }
}
