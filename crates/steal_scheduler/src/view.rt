//! What a pass of a deque records.
use std::collections::LinkedList;

/// What a hand's pass at one deque records. No value of this type exists.
pub struct PassView {
    /// Whether it is the pass of the deque's owner.
    pub owns: bool,
    /// The numbers that it put on the deque, in order.
    pub put: LinkedList<u32>,
    /// The numbers that it took from the deque, in order.
    pub taken: LinkedList<u32>,
    /// For the owner, what it put and has not taken back, the newest last.
    pub outstanding: LinkedList<u32>,
}
