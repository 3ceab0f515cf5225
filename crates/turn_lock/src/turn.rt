//! The turn: whoever takes it has the value, and gives it back unchanged or with one more entry.
ghost use Rattle.std.specs.Prelude.{◌≡◌, ◌^◌, ◌<◌, ◌≤◌, [], length, Some, None, option_map, IfSome, IfOk};
ghost use Rattle.turn_lock.specs.Seats.{with_looked, with_taken, with_given, view, SameWorker, Knows, IsSeatOf, HasTurn, HasNoTurn, Extends, IsAlike, AreNewSeats, AreAllSeats, IsFinalFor, HasOwnEntries, GaveOne, own_entries, opening_view};
ghost use Rattle.std.specs.Mem.Slots.{slots_items, slots_len, IsFull};
ghost use mathlib.Core.Option.{some};
ghost use lib.ListN.{get_elem?};

use crate::kept::Kept;
use crate::steps::{
    Gives, JoinsSeat, Looks, PartAfter, Returns, Rule, Seat, SplitsSeat, Takes, ViewOf,
};
use atomic_table::{Closed, Refused, Table};
use std::alloc::{AllocError, Global};
use std::marker::Brand;
use std::snapshot::Snapshot;
use std::sync::Wait;
use std::{hint, thread};

// After this many failed attempts to take the turn, a thread yields before each further one. By then its pauses are some
// microseconds long, so the others make many entries in a row, with the value in their caches.
const PATIENCE: u32 = 14;

/// A value that workers take in turns, each by its seat. Threads share it by reference.
#[derive(Drop)]
pub struct Turn<T: Kept> {
    table: Table<Option<T>, ViewOf<T>, Snapshot<T>, Rule<T>, Global>,
    ghost sized: { (table.shared.table_id.words ≡ 1) × (table.shared.table_id.slots ≡ 1) },
}

impl<T: Kept + Drop> Turn<T> {
    ghost use Rattle.turn_lock.specs.Turn.{identity};

    /// The turn, and a seat for each worker, in order. If an allocation fails the value is dropped.
    pub fn new(alloc: Global, value: T, workers: u32) -> Result<(Turn<T>, Vec<Seat<T>>), AllocError>
        requires workers { 0 < workers }
        requires entries { length (T.journal value) < 2 ^ 63 }
        ensures { IfOk result (λ t. AreNewSeats (identity t.0) (opening_view T.journal T.setup value) workers t.1.items) }
    {
        let count = value.entries();
        let key = Snapshot::of(&value);
        let mut slots = Vec::with_capacity(alloc, 1)?;
        slots.push_reserved(Some(value));
        match Table::new(alloc, &[2 * count], slots, &key) {
            Ok((table, first)) => Turn { table }.with_seats(alloc, first, workers),
            Err(Refused { slots: _ }) => Err(AllocError),
        }
    }

    fn with_seats(
        self,
        alloc: Global,
        mut first: Seat<T>,
        workers: u32,
    ) -> Result<(Turn<T>, Vec<Seat<T>>), AllocError>
        requires workers { 0 < workers }
        requires first { (first.table_id ≡ identity self) × ((value : T) × (first.me ≡ (opening_view T.journal T.setup value, []))) }
        ensures { IfOk result (λ t. AreNewSeats (identity t.0) (view first) workers t.1.items) }
    {
        let mut seats = Vec::new(alloc);
        for _ in 1..workers {
            seats.push(self.table.shared.split_seat::<SplitsSeat>(&mut first))?;
        }
        seats.insert(0, first)?;
        Ok((self, seats))
    }

    /// Ends the turn. All seats are returned, in the order in which `new` gave them.
    pub fn close(self, mut seats: Vec<Seat<T>>) -> T
        requires { AreAllSeats (identity self) seats.items }
        ensures value { IsFinalFor T.journal T.worker_of T.fits T.setup result seats.items }
        ensures own { HasOwnEntries T.journal T.worker_of T.fits T.setup result seats.items }
    {
        let mut first = seats.remove(0);
        while let Some(other) = seats.pop() {
            self.table.shared.join_seat::<JoinsSeat>(&mut first, other);
        }
        let Turn { table } = self;
        value_at_home(table.close_with(first))
    }

    /// The number of entries at the moment of its atomic step. It doesn't take the turn, and also returns while a seat
    /// has the turn.
    pub fn look(&self, seat: &mut Seat<T>) -> u64
        requires { IsSeatOf (identity self.now) seat.old }
        ensures seat { (seat.new.table_id ≡ seat.old.table_id) × (seat.new.me.1 ≡ seat.old.me.1) × (view seat.new ≡ with_looked (view seat.old) result) }
        ensures same { SameWorker (view seat.old) (view seat.new) }
        ensures idle { HasNoTurn (identity self.now) seat.old → HasNoTurn (identity self.now) seat.new }
        ensures holds { (value : T) → HasTurn (identity self.now) seat.old value → HasTurn (identity self.now) seat.new value }
        ensures more { (length (view seat.old).seen ≤ result) × ((view seat.old).looked ≤ result) }
    {
        self.table.shared.load::<Looks>(seat, 0) / 2
    }

    /// Takes the turn and the value, as soon as no other seat has the turn. While one has it, this only reads the word,
    /// whose cache line then stays shared.
    pub fn take<R: Wait>(&self, rt: &R, seat: &mut Seat<T>) -> T
        requires { HasNoTurn (identity self.now) seat.old }
        ensures turn { HasTurn (identity self.now) seat.new result }
        ensures seat { view seat.new ≡ with_taken (view seat.old) result }
        ensures same { SameWorker (view seat.old) (view seat.new) }
        ensures value { Knows T.journal T.worker_of T.fits T.setup result (view seat.old) }
    {
        let mut tries = 0;
        for _ in rt.forever() {
            if self.table.shared.peek(0) % 2 == 0 {
                if self.table.shared.fetch_or::<Takes<T>>(seat, 0, 1) % 2 == 0 {
                    return self.table.shared.exchange(seat, 0, None).unwrap();
                }
            }
            tries = pause(tries);
        }
        unreachable!()
    }

    /// Gives the value and the turn back, with one more entry. The worker keeps the part.
    pub fn give_back(&self, seat: &mut Seat<T>, value: T, part: Option<&T::Part>)
        requires turn { (taken : T) × HasTurn (identity self.now) seat.old taken × Extends T.journal T.worker_of T.fits T.setup taken value (view seat.old).worker }
        requires part { IfSome part (λ p. T.fits value (view seat.old).worker p.now) }
        ensures seat { HasNoTurn (identity self.now) seat.new × (view seat.new ≡ with_given (view seat.old) value (T.journal value) (option_map (λ p. p.now) part.entry)) }
        ensures same { SameWorker (view seat.old) (view seat.new) }
        ensures own { GaveOne T.worker_of (T.journal value) (view seat.old) (view seat.new) }
    {
        self.give::<Brand>(seat, value, part);
    }

    fn give<L: PartAfter<T::Part>>(&self, seat: &mut Seat<T>, value: T, part: Option<&T::Part>)
        requires left { L.part ≡ option_map (λ p. p.now) part }
        requires turn { (taken : T) × HasTurn (identity self.now) seat.old taken × Extends T.journal T.worker_of T.fits T.setup taken value (view seat.old).worker }
        requires part { IfSome part (λ p. T.fits value (view seat.old).worker p.now) }
        ensures seat { HasNoTurn (identity self.now) seat.new × (view seat.new ≡ with_given (view seat.old) value (T.journal value) L.part) }
        ensures same { SameWorker (view seat.old) (view seat.new) }
        ensures own { GaveOne T.worker_of (T.journal value) (view seat.old) (view seat.new) }
    {
        drop(self.table.shared.exchange(seat, 0, Some(value)));
        self.table.shared.fetch_add::<Gives<T, L>>(seat, 0, 1);
    }

    /// Gives the value and the turn back, with the journal, the fitting parts and the setup that were taken.
    pub fn release_unchanged(&self, seat: &mut Seat<T>, value: T)
        requires { (taken : T) × HasTurn (identity self.now) seat.old taken × IsAlike T.journal T.worker_of T.fits T.setup taken value }
        ensures seat { HasNoTurn (identity self.now) seat.new × (view seat.new ≡ with_given (view seat.old) value (T.journal value) (view seat.old).part) }
        ensures same { SameWorker (view seat.old) (view seat.new) }
        ensures own { own_entries T.worker_of (view seat.new) ≡ own_entries T.worker_of (view seat.old) }
    {
        drop(self.table.shared.exchange(seat, 0, Some(value)));
        self.table.shared.fetch_sub::<Returns<T>>(seat, 0, 1);
    }
}

// Backs off after failed attempts, each time twice as long as before, up to the point at which other threads run;
// returns the number of attempts including this one, saturating.
fn pause(tries: u32) -> u32 {
    if tries < PATIENCE {
        for _ in 0..1u32 << tries {
            hint::spin_loop();
        }
        return tries + 1;
    }
    thread::yield_now();
    tries
}

// The value in the only slot, which is full.
fn value_at_home<T>(mut closed: Closed<Option<T>, Global>) -> T
    requires { (slots_len closed.slots ≡ 1) × IsFull closed.slots × ((value : T) × (get_elem? (slots_items closed.slots) 0 ≡ some (Some value))) }
    ensures { get_elem? (slots_items closed.slots) 0 ≡ some (Some result) }
{
    let value = closed.take(0).unwrap();
    closed.free();
    value
}
