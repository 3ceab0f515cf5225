// Reads all bytes of a source, up to a limit; writes all bytes to a sink.
#![tactic(auto)]

mod read;
mod write;

pub use io_traits::{Failed, Sink, Source};
pub use read::{ReadError, read_file};
pub use write::write_all;
