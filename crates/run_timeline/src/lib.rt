// The timeline of a run, in the Chrome trace-event format that Perfetto and others read: a lane for each worker, and
// its entries as slices; tasks and collections as spans, forks and joins as arrows, the chunks in use and the words
// held as counters.
#![tactic(auto)]

mod entry;
mod events;
mod laws;
mod tasks;
mod timeline;
mod words;

pub use laws::{slices_are_entries, words_follow_entries};
pub use tasks::fork_line;
pub use timeline::timeline_text;
pub use words::AccountCounts;
