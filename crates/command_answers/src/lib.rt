// What each command answers: bytes, a status, and what is returned of a run; the answers of commands that keep no shared
// value; how an answer is written; and the laws of all answers.
#![tactic(auto)]

// The answers of the commands.
mod check;
mod model;
mod races;
mod verify;

// Their parts: the input, the options, and the answers that return nothing of a run.
mod answer;
mod extras;
mod input;
mod refusals;
mod wanted;

// How an answer is written, and the laws of all answers.
mod delivery;
mod laws;

pub use answer::{Answer, CallResult, CommandStatus};
pub use check::answer_check;
pub use delivery::{deliver, nothing, return_wanted};
pub use extras::extras_of;
pub use input::{program_in, read_input};
pub use laws::{
    images_are_verified, images_have_just_held, made_are_accepted, made_are_read, made_are_run,
    model_writes_the_same, no_fault_gives_all, programs_are_run, raceless_are_disentangled,
    recorded_runs_are_alike, runs_hold_the_headline, statuses_of_ends, traces_are_replayed,
};
pub use model::answer_model;
pub use race_report::{Listed, Program};
pub use races::answer_races;
pub use read_write_all::ReadError;
pub use refusals::{bytes_alone, refused, trace_short};
pub use verify::answer_verify;
pub use wanted::Wanted;
