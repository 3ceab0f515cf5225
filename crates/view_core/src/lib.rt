// What `hhview` shows: the picture that a command asks for, or why the input is refused.
#![tactic(auto)]

mod call;
mod faults;
mod heaps;
mod page;
mod races;
mod runs;
mod schedules;
mod views;

pub use call::view;
