//! The invariant of a deque between any two steps, and what each step guarantees.

use crate::own_deque::OwnDeque;
use crate::victim_deque::VictimDeque;
use crate::view::PassView;
use crossbeam_deque::Stealer;
use crossbeam_deque::protocol::{Outcome, Protocol};
use std::alloc::Global;

/// The invariant of a deque. No value of this type exists.
pub struct Deals;

impl Protocol<u32, PassView> for Deals {
    ghost use Rattle.steal_scheduler.specs.Rule.{Dealt, opening_view, guest_view};

    ghost holds = { Dealt };

    ghost first = { opening_view };

    ghost guest = { guest_view };
}

pub(crate) struct Puts;

impl Outcome<u32, PassView> for Puts {
    ghost use Rattle.std.specs.Prelude.{◌≡◌};
    ghost use Rattle.steal_scheduler.specs.Rule.{with_put};

    ghost then = { λ v xs w. w ≡ with_put v xs };
}

pub(crate) struct TakesBack;

impl Outcome<u32, PassView> for TakesBack {
    ghost use Rattle.steal_scheduler.specs.Rule.{TookBack, HasAtMost};

    ghost then = { TookBack };

    ghost empty = { HasAtMost 0 };
}

pub(crate) struct Steals;

impl Outcome<u32, PassView> for Steals {
    ghost use Rattle.std.specs.Prelude.{◌≡◌};
    ghost use Rattle.steal_scheduler.specs.Rule.{with_taken, HasAtMost};

    ghost then = { λ v xs w. w ≡ with_taken v xs };

    ghost empty = { HasAtMost 1 };
}

pub(crate) type Owner = OwnDeque<PassView, Deals>;

pub(crate) type Victim = VictimDeque<PassView, Deals>;

pub(crate) type Thief = Stealer<u32, Global, PassView, Deals>;
