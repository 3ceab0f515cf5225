// Each entry keeps what a memory of words stands for, and keeps what every worker holds fitting.
#![tactic(auto)]

mod laws;

pub use laws::{ends_leave, ran_leaves, sweeps_leave};
pub use refinement::{
    Addr, Begun, Birth, CHUNK_WORDS, Chunk, DEPTH_LIMIT, End, Entry, Frames, Fun, Instr, IntReg,
    Kind, Listed, MARKED_AT_ONCE, Marking, MarkingRoom, Owed, PRIVATE_LIMIT, Paused, Private,
    Program, RefField, RefReg, Refused, RefusedAt, Remembered, Report, ReservedVec, RunEnd,
    Settings, TaskState, Trap, Tree, Version, Words, birth_at, header_at, int_at, is_object_at,
    is_same_reference, next_at, ref_at, run_local, units,
};
