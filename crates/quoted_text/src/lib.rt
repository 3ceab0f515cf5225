// Strings in quotes, and texts in which quotes and brackets balance.
#![tactic(auto)]

mod guard;
mod laws;
mod quote;

pub use guard::add_guarded;
pub use laws::{guarded_has_no_tag, joined_balance, plain_balance, quoted_balance};
pub use quote::add_quoted;
