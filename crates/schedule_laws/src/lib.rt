// What one schedule of a program determines about the others: one whole run in order determines all.
#![tactic(auto)]

mod laws;

pub use laws::{
    every_end_agrees, every_run_goes_on, fields_stay, journals_agree, one_run_speaks_for_all,
    ordered_is_race_free, some_run_speaks_up, steps_commute, steps_leave_steps,
};
