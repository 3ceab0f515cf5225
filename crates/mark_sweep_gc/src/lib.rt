// The marking of a waiting task's heap: what was reachable at its fork, whatever was written since.
#![tactic(auto)]

mod laws;
mod marking;
mod room;
mod sweep;

pub use laws::{
    marking_goes_on, marking_stays_of, snapshot_is_of_roots, swept_are_read, swept_chunks_hold,
    swept_is_snapshot,
};
pub use marking::Marking;
pub use room::MarkingRoom;
