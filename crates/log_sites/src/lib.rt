// The names that a log gives to sites of its program.
#![tactic(auto)]

mod line;
mod names;

pub use names::{SiteNames, site_names};
