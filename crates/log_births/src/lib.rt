// Blocks that strands see too early, before their births, or use too late, after their releases.
#![tactic(auto)]

mod acts;
mod checks;
mod find;
mod findings;
mod laws;
mod lines;
mod some_lifetime;

pub use acts::{born, released, used};
pub use find::{FindError, find_uses};
pub use findings::{Finding, Findings};
pub use laws::uses_tell_reads;
pub use lines::{BlockLines, Lifetimes, LineAt, lifetimes_of};
