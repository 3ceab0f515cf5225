// The calls that make the entries of a replay: each entry that the ledger allows, whatever the pace.
#![tactic(auto)]

mod calls;

pub use calls::LegalCalls;
pub use entry_calls::{
    Addr, BlockSource, Entry, Kind, Leaving, Lent, Moved, NotEntered, PRIVATE_LIMIT, Paused,
    Private, Program, Ran, Refused, Settings, ToChunks, copy, run_local,
};
