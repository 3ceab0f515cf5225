//! Boxed values, which contracts see as the value itself: moving a large value moves a pointer.
#![tactic(auto)]

mod boxed_slot;

pub use boxed_slot::BoxedSlot;
