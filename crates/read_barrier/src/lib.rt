// The test at a read: whether an object belongs to the reader or to an ancestor.
#![tactic(auto)]

mod barrier;

pub use barrier::{Stop, check, check_counted};
