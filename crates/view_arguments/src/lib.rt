// What the command-line arguments of `hhview` ask for.
#![tactic(auto)]

mod command;
mod faults;
mod line;
mod page;
mod read;
mod title;

pub use line::{InputFile, Picture, RunView, ViewCall};
pub use read::read_view;
pub use title::PageTitle;
