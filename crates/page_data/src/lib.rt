// The data of a run for a page that shows it: JSON in which no `<` stands, so that it can stand in a page's script
// element whatever the program's comments say.
#![tactic(auto)]

// What fields hold, and the last step of an entry.
mod act;
mod values;

// An entry with its delta, what it tells of heaps, and what stands before and behind the entries.
mod delta;
mod heap;
mod run;

pub use delta::open_entry;
pub use heap::close_entry;
pub use run::{add_ending, add_settings_and_start};
