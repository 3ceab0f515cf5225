// The top call: from command-line arguments and a source of bytes to what is written, and the status.
#![tactic(auto)]

mod answers;
mod process_call;
mod run;
mod top_call;

pub use process_call::answer_process;
pub use run_answers::{
    Answer, CallResult, CommandStatus, images_are_verified, images_have_just_held,
    made_are_accepted, made_are_read, made_are_run, model_writes_the_same, no_fault_gives_all,
    programs_are_run, raceless_are_disentangled, recorded_runs_are_alike, runs_hold_the_headline,
    statuses_of_ends, traces_are_replayed,
};
pub use top_call::{call_status, command};
