//! What a seat knows.
use std::collections::LinkedList;

/// What a seat knows. No value of this type exists.
pub struct SeatView<T, E, P, S> {
    /// False after the seat was joined with another.
    pub live: bool,
    pub worker: u64,
    /// That of the opening value.
    pub setup: Option<S>,
    /// The number of entries at the last look, initially 0.
    pub looked: u64,
    /// The journal when it was last given back, initially the opening one.
    pub seen: LinkedList<E>,
    /// The value last given back, if any.
    pub given: Option<T>,
    /// The part that the worker kept when it last gave back.
    pub part: Option<P>,
    /// The value that was taken, while the seat has the turn.
    pub taken: Option<T>,
    /// For worker 0, the number of seats.
    pub count: u64,
    /// For worker 0, the number of each seat that was joined with it, and what that seat had seen.
    pub joined: LinkedList<(u64, LinkedList<E>)>,
}
