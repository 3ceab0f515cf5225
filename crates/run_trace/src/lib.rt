// The entries of a run's journal, the settings of a run, and the text of a journal.
#![tactic(auto)]

mod entry;
mod laws;
mod line;
mod settings;
mod trace;

pub use entry::{Entry, Kind, MARK_LIMIT, PRIVATE_LIMIT};
pub use laws::texts_are_read_again;
pub use or_no_memory::OrNoMemory;
pub use settings::{CHUNK_LIMIT, FUEL_LIMIT, Settings, Version, WORDS_LIMIT, WORKER_LIMIT};
pub use trace::{Trace, read_trace, read_version, trace_text};
