// Steps of a task on its own objects: taken outside the turn, and committed alone.
#![tactic(auto)]

mod alone;
mod laws;

pub use alone::at_end;
pub use core_invariant::{
    Addr, BoxedSlot, Child, EndedChild, Frames, Heaps, Instr, IntReg, LeafHeap, Listed, Marking,
    ParkedTask, Pool, Private, Program, RefField, RefReg, Remembered, Side, TaskSlot, TaskSlots,
    TaskState, Trap, Tree, View, Words, Work, field_index, fork, is_same_reference, join,
    note_write, places, sibling_of,
};
pub use laws::parts_fit_again;
