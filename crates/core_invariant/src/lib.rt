// The value that workers share, as a record, when it stands for its journal and a part fits it, and the conditions of
// its entries; laws of what every entry keeps.
#![tactic(auto)]

mod answer;
mod causes;
mod copy;
mod next_step;
mod taken;

pub use answer::{NotEntered, NotRan};
pub use causes::first_cause;
pub use copy::copy_program;
pub use copying_gc::{Moved, ToChunks, copy as copying_gc_copy};
pub use fork_join::{Child, EndedChild, Side, fork, join, places, sibling_of};
pub use leaf_heap::{LeafHeap, View};
pub use next_step::{Ending, field_index, last_step, words_asked};
pub use refinement_laws::{
    Addr, Begun, Birth, CHUNK_WORDS, Chunk, DEPTH_LIMIT, End, Entry, Frames, Instr, IntReg, Kind,
    Listed, MARKED_AT_ONCE, Marking, MarkingRoom, Owed, PRIVATE_LIMIT, Paused, Private, Program,
    RefField, RefReg, Refused, RefusedAt, Remembered, Report, ReservedVec, RunEnd, Settings,
    TaskState, Trap, Tree, Version, Words, birth_at, header_at, int_at, is_object_at,
    is_same_reference, next_at, ref_at, run_local, units,
};
pub use taken::opened;
pub use task_slots::{
    BoxedSlot, Heaps, NotTaken, ParkedTask, Pool, SetOf, TaskSlot, TaskSlots, Work, note_write,
};
