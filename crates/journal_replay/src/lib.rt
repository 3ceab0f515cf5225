// The whole state as one value, to which the entries of a journal are applied.
#![tactic(auto)]

// The whole state as a value, and its replay.
mod out_part;
mod replaying;
mod world;

// Its entries.
mod apply;
mod apply_apart;
mod apply_begin;
mod apply_chunk;
mod apply_end;
mod apply_put_off;
mod apply_ran;
mod apply_took;

pub use heap_reading::{End, Entry, Kind, Program, RunEnd, Settings, Version};
pub use io_traits::EmptyGate;
pub use replaying::{ReplayStop, replay};
pub use world::{NotApplied, World};
