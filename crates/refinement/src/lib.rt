// What a memory made of words stands for: the relation between the belongings of tasks and the accounts of a journal.
#![tactic(auto)]

mod laws;

pub use heap_tree::{TaskState, Tree};
pub use hh_model::{End, Trap};
pub use laws::{collections_keep, forks_keep, joins_keep, sweeps_keep};
pub use mark_sweep_gc::{Marking, MarkingRoom};
pub use object_layout::{
    Addr, Birth, CHUNK_WORDS, Chunk, Words, birth_at, header_at, int_at, is_object_at,
    is_same_reference, next_at, ref_at, units,
};
pub use remembered_set::{RefField, Remembered};
pub use run_ledger::{
    Entry, Kind, Listed, MARKED_AT_ONCE, Owed, PRIVATE_LIMIT, Refused, RefusedAt, Report,
    ReservedVec, RunEnd, Settings, Version,
};
pub use task_machine::{
    Begun, DEPTH_LIMIT, Frames, Fun, Instr, IntReg, Paused, Private, Program, RefReg, run_local,
};
