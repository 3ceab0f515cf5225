// The result of a leaf collection on a part is a copy of it, in the sense of the relation of the core.
#![tactic(auto)]

mod laws;

pub use laws::copied_fits;
