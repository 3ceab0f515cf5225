// The answers of commands that keep a shared value: the end of a run, replays, images.
#![tactic(auto)]

mod ended;
mod image;
mod replay;

pub use command_answers::{
    Answer, CallResult, CommandStatus, Listed, Program, ReadError, Wanted, answer_check,
    answer_model, answer_races, answer_verify, bytes_alone, deliver, extras_of,
    images_are_verified, images_have_just_held, made_are_accepted, made_are_read, made_are_run,
    model_writes_the_same, no_fault_gives_all, nothing, program_in, programs_are_run,
    raceless_are_disentangled, read_input, recorded_runs_are_alike, refused, return_wanted,
    runs_hold_the_headline, statuses_of_ends, traces_are_replayed,
};
pub use ended::{amid, answer_ended};
pub use image::answer_image;
pub use replay::answer_replay;
