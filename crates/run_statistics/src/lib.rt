// The shared value, and the totals of its journal's entries: each call makes one entry and counts it.
#![tactic(auto)]

mod calls;
mod counted;
mod counting;
mod held_words;

pub use counted::Counted;
pub use heap_reading::{
    Addr, BoxedSlot, End, Entry, Kind, Listed, MARKED_AT_ONCE, Moved, Owed, PRIVATE_LIMIT, Paused,
    Private, Program, Refused, RefusedAt, RunEnd, Settings, ToChunks, Version, copy, run_local,
};
pub use held_words::held;
pub use legal_calls::LegalCalls;
pub use shared_tree::{
    BlockSource, EntryCalls, Fork, Leaving, Lent, NotEnded, NotEntered, NotLeft, Pace, PartBlock,
    PartInBlock, PreviousKind, Ran, Remains, Shared, fork_in, is_joined, marking_cause,
    waiting_cause,
};
