// Forks and joins for tests: each call checks its preconditions, and reports if they don't hold.
#![tactic(auto)]

mod joining;

pub use joining::{ended, forked, has_forked, joined};
