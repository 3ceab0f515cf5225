// Heaps, pools and sweeps for tests: each call checks its preconditions, and reports if they don't hold.
#![tactic(auto)]

mod cells;
mod pools;
mod scenes;
mod soundness;
mod sweeping;

pub use cells::{is_fit_heap, small_in_all};
pub use chunk_pool::Pool;
pub use hh_lang::DEPTH_LIMIT;
pub use leaf_heap::LeafHeap;
pub use object_layout::{Addr, CHUNK_WORDS, Chunk};
pub use pools::{add_taken, is_full, owner, relabel, take, take_and_give};
pub use scenes::{
    Put, Seen, Spot, at, at_spot, freeze, heap_of, holds, is_mutable, number, one_frame, place,
    place_kind, set_number,
};
pub use soundness::{is_fresh, is_live, outside_is_sound};
pub use sweeping::{mark_and_sweep, mark_and_sweep_twice};
pub use task_frames::Frames;
