// What holds of every run of the machine that never collects, whatever its program and the order of its steps.
#![tactic(auto)]

mod laws;

pub use laws::{
    one_winner, path_is_precedence, reads_are_decided, sizes_are_bounded, some_cas_wins,
};
