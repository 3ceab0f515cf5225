// Vectors that contracts see as plain lists.
#![tactic(auto)]

mod list;
mod reserved_vec;

pub use list::Listed;
pub use reserved_vec::ReservedVec;
