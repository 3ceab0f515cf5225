// The calls that make the entries of a run: what workers ask of the value that they share, whoever keeps it.
#![tactic(auto)]

mod answers;
mod calls;
mod part_block;

pub use answers::{Leaving, Lent, NotEnded, NotLeft, Ran};
pub use calls::EntryCalls;
pub use fork_join_commit::{
    ForkBlocks, at_end, first_task_slots, fork_task_slots, grow, in_order, is_ended, join_children,
    make_places, none_out, other_child, own_child, parts_fit_again,
};
pub use heap_marking::{
    Child, EndedChild, Fork, Pace, ParkedTask, PreviousKind, TaskSlot, TaskSlots, Work,
    begin_marking, drop_unmarked, forget_kept, fork_in, is_joined, marking_cause, waiting_cause,
    words_cause,
};
pub use leaf_collections::{
    Addr, BoxedSlot, DEPTH_LIMIT, End, Ending, Entry, Heaps, Instr, IntReg, Kind, Listed,
    MARKED_AT_ONCE, Marking, MarkingRoom, Moved, NotEntered, NotRan, NotTaken, Owed, PRIVATE_LIMIT,
    Paused, Pool, Private, Program, RefReg, Refused, ReservedVec, RunEnd, SetOf, Settings,
    TaskState, ToChunks, Trap, Tree, begin_with, cause_by, chunks_for, copy_program,
    copying_gc_copy as copy, due_cause, first_cause, give_all, last_step, lead, opened, run_local,
    sibling_of, units_for, words_asked,
};
pub use part_block::{BlockSource, PartBlock, PartInBlock};
