//! How a hand steals from one deque under the invariant.
ghost use Rattle.std.specs.Prelude.{◌≡◌, false, IfOk, IfSome, IfNone};
ghost use Rattle.steal_scheduler.specs.Ends.{StealsBy, thief_view};
ghost use Rattle.steal_scheduler.specs.Rule.{guest_view};

use crate::rule::{Steals, Thief, Victim};
use crate::victim_deque::VictimDeque;
use std::alloc::AllocError;
use std::sync::Wait;

/// A hand's way to steal from one deque.
#[derive(Drop)]
pub struct Theft {
    victim: Victim,
    ghost steals: { (thief_view victim).owns ≡ false },
}

impl Theft {
    ghost use Rattle.steal_scheduler.specs.Thefts.{theft_view, vain_thefts, SameTheft, Stole, StoleNone};

    pub(crate) fn new(stealer: &Thief) -> Result<Theft, AllocError>
        ensures { IfOk result (λ t. StealsBy t.victim stealer.now × (theft_view t ≡ guest_view) × (vain_thefts t ≡ 0)) }
    {
        let victim = VictimDeque::new(stealer)?;
        Ok(Theft { victim })
    }

    // How many thefts found at most one number.
    pub(crate) fn vain(&self) -> u64
        ensures { result ≡ vain_thefts self.now }
    {
        self.victim.vain_thefts()
    }

    // The oldest, or None if the deque held at most one number at some step.
    pub(crate) fn steal<R: Wait>(&mut self, rt: &R) -> Option<u32>
        ensures same { SameTheft self.old self.new }
        ensures some { IfSome result (λ x. Stole x self.old self.new) }
        ensures none { IfNone result (StoleNone self.old self.new) }
    {
        self.victim.steal::<Steals, R>(rt)
    }
}
