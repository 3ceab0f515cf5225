// All faults of a text of the register language, with what is expected in place of each.
#![tactic(auto)]

// The whole text, its faults, and laws.
mod fault;
mod laws;
mod text;

// The meaning of a line.
mod form;
mod operand;
mod parsed;
mod placed;

// What the lines around it say, and what is wrong on it.
mod found;
mod near;
mod walk;

pub use fault::{Fault, Operand, Wrong};
pub use laws::{first_is_told, none_in_programs};
pub use text::text_faults;
