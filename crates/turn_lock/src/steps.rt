//! The invariant between any two steps, and what each kind of step guarantees.
use crate::kept::Kept;
use crate::view::SeatView;
use atomic_table::{Join, Play, Split, TableRule};
use std::marker::{Brand, PhantomData};
use std::snapshot::Snapshot;

/// The view of a seat over a value of this type.
pub type ViewOf<T> = SeatView<T, <T as Kept>::Entry, <T as Kept>::Part, <T as Kept>::Setup>;

/// A worker's seat at the turn. It has no size, and is owned by one thread at a time.
pub type Seat<T> = atomic_table::Seat<Option<T>, ViewOf<T>>;

/// The invariant of a turn. No value of this type exists.
pub struct Rule<T> {
    marker: PhantomData<T>,
}

impl<T: Kept> TableRule<Option<T>, SeatView<T, T::Entry, T::Part, T::Setup>, Snapshot<T>>
    for Rule<T> {
    ghost use Rattle.turn_lock.specs.Rule.{Turning};
    ghost use Rattle.turn_lock.specs.Seats.{opening_view};

    ghost holds = { λ _. Turning T.journal T.worker_of T.fits T.setup };

    ghost first = { λ key. opening_view T.journal T.setup key.value };
}

pub(crate) struct Looks;

impl<T, E, P, S> Play<Option<T>, SeatView<T, E, P, S>> for Looks {
    ghost use Rattle.turn_lock.specs.Rule.{looks};

    ghost then = { looks };
}

pub(crate) struct Takes<T> {
    marker: PhantomData<T>,
}

impl<T: Kept> Play<Option<T>, SeatView<T, T::Entry, T::Part, T::Setup>> for Takes<T> {
    ghost use Rattle.turn_lock.specs.Rule.{takes};

    ghost then = { takes T.journal T.worker_of T.fits T.setup };
}

// The part that a giving back leaves with the worker, for the proof alone. A call at `Brand` chooses it.
pub(crate) trait PartAfter<P> {
    ghost use Rattle.std.specs.Prelude.{Option};

    ghost part: { Option P };
}

impl<P> PartAfter<P> for Brand {
    ghost use Rattle.std.specs.Prelude.{None};

    ghost part = { None };
}

pub(crate) struct Gives<T, L> {
    marker: PhantomData<(T, L)>,
}

impl<T: Kept, L: PartAfter<T::Part>> Play<Option<T>, SeatView<T, T::Entry, T::Part, T::Setup>>
    for Gives<T, L> {
    ghost use Rattle.turn_lock.specs.Rule.{gives};

    ghost then = { gives T.journal T.worker_of T.fits T.setup L.part };
}

pub(crate) struct Returns<T> {
    marker: PhantomData<T>,
}

impl<T: Kept> Play<Option<T>, SeatView<T, T::Entry, T::Part, T::Setup>> for Returns<T> {
    ghost use Rattle.turn_lock.specs.Rule.{returns};

    ghost then = { returns T.journal T.worker_of T.fits T.setup };
}

pub(crate) struct SplitsSeat;

impl<T, E, P, S> Split<SeatView<T, E, P, S>> for SplitsSeat {
    ghost use Rattle.turn_lock.specs.Rule.{with_seat_more, split_view};

    ghost left = { with_seat_more };

    ghost right = { split_view };
}

pub(crate) struct JoinsSeat;

impl<T, E, P, S> Join<SeatView<T, E, P, S>> for JoinsSeat {
    ghost use Rattle.turn_lock.specs.Rule.{with_joined, spent_view};

    ghost both = { with_joined };

    ghost spent = { spent_view };
}
