// What the program meets outside: sources and sinks of bytes, and the gate that its workers pass.
#![tactic(auto)]

mod adapters;
mod fault;
mod gate;
mod memory;
mod sink;
mod source;
mod sure;

pub use adapters::{FileSource, OutSink};
pub use fault::Failed;
pub use gate::{EmptyGate, Gate, Point};
pub use memory::{MemSink, MemSource};
pub use sink::Sink;
pub use source::Source;
pub use sure::{SureSink, SureSource};
