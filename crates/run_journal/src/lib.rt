// Replays of journals: books of accounts to which entries are applied, and how the run of a journal ended.
#![tactic(auto)]

mod book;
mod joins;
mod reads;
mod replay;

pub use book::Book;
pub use hh_lang::{Instr, IntReg, Line, PROGRAM_LIMIT, Program, RefReg};
pub use hh_model::{
    End, Frame, Machine, MachineState, Name, Object, StepError, Strand, Task, TaskStatus, is_same,
};
pub use joins::joins_of;
pub use plain_vec::Listed;
pub use replay::{model_replay, replayed};
pub use run_accounts::Held;
pub use run_ledger::{Heap, Refused, RefusedAt, RunEnd};
pub use run_trace::{Entry, Kind, OrNoMemory, Settings, Version, WORKER_LIMIT, trace_text};
