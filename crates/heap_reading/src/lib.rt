// What the heaps of tasks that don't run hold, for images.
#![tactic(auto)]

mod live;
mod noted;
mod seen;

pub use core_invariant::{
    Addr, BoxedSlot, CHUNK_WORDS, Chunk, End, Entry, Kind, Listed, MARKED_AT_ONCE, Moved, Owed,
    PRIVATE_LIMIT, Paused, Private, Program, Refused, RefusedAt, Report, RunEnd, Settings,
    TaskState, ToChunks, Version, copying_gc_copy as copy, run_local,
};
pub use live::{InUse, LiveTask, is_running, live_in};
pub use noted::{FieldAt, fields_of};
pub use seen::{SeenObject, number_of, seen_in};
