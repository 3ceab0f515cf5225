// A whole call of a program, the same for each program: its arguments, its input, what it writes where, faults, and its
// exit status.
#![tactic(auto)]

mod input;
mod reply;
mod status;
mod streams;
mod words;

pub use input::read_up_to;
pub use reply::Reply;
pub use status::{AnswerStatus, CallStatus};
pub use streams::give;
pub use words::{exit_code, words_after_name, words_of_call};
