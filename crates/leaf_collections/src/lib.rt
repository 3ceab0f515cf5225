// Chunks for leaf heaps, and leaf collections: put off, begun and ended.
#![tactic(auto)]

mod chunk;
mod enough;
mod leaf_begin;
mod leaf_end;

pub use chunk::{cause_by, units_for};
pub use core_invariant::{
    Addr, BoxedSlot, DEPTH_LIMIT, End, Ending, Entry, Heaps, Instr, IntReg, Kind, Listed,
    MARKED_AT_ONCE, Marking, MarkingRoom, Moved, NotEntered, NotRan, NotTaken, Owed, PRIVATE_LIMIT,
    Paused, Pool, Private, Program, RefReg, Refused, ReservedVec, RunEnd, SetOf, Settings,
    TaskState, ToChunks, Trap, Tree, copy_program, copying_gc_copy, first_cause, last_step, opened,
    run_local, sibling_of, words_asked,
};
pub use enough::{chunks_for, due_cause};
pub use leaf_begin::begin_with;
pub use leaf_end::{give_all, lead};
