// The accounts of a run, updated along with the machine that never collects: an entry is made in them, or refused.
#![tactic(auto)]

// The accounts, and what is read of them.
mod accounts;
mod counts;
mod reads;
mod shown;

// An entry is made, or refused.
mod causes;
mod changes;
mod enter;

// The steps of tasks.
mod ran;
mod steps;

pub use accounts::Accounts;
pub use reads::Held;
