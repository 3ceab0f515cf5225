// Journals of runs: the accounts that each entry changes, which entries are legal, and the result of a run. The
// definitions are in specs/, and what most crates cite of legal journals is in proofs/.
#![tactic(auto)]

mod data;

pub use data::{
    Heap, Ledger, MARKED_AT_ONCE, Owed, Previous, Refused, RefusedAt, Report, RunEnd, WorkerPace,
};
pub use plain_vec::{Listed, ReservedVec};
pub use run_trace::{Entry, Kind, PRIVATE_LIMIT, Settings, Version};
