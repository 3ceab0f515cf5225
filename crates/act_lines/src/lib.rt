//! The lines of a log that say what strands do, found by their numbers.
#![tactic(auto)]

mod find;
mod laws;
mod line;

pub use find::lines_of_acts;
pub use laws::lines_say_what_happens;
pub use line::{ActLine, site_of};
