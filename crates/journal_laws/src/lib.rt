// Laws of every legal journal, and of what its entries and steps change.
#![tactic(auto)]

mod laws;

pub use laws::{
    accepted_is_allowed, collections_keep_just, entries_leave_others, held_is_undropped,
    leaf_collections_are_bounded, machine_is_run, nothing_reachable_is_freed, paced_keeps_the_pace,
    snapshots_are_within, steps_are_bounded, survivors_are_within, sweeps_are_bounded,
    use_is_bounded, words_are_accounted,
};
