//! The order of a walked run's strands, as the scan of a location asks for it.
#![tactic(auto)]

mod laws;
mod order;

pub use laws::walks_have_an_order;
pub use order::RunOrder;
