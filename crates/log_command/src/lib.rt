// A call of the program that checks logs of fork-join programs.
#![tactic(auto)]

mod call;
mod read;
mod texts;

pub use call::check;
