// What the command-line arguments ask for.
#![tactic(auto)]

mod command;
mod line;
mod read;

pub use command::with_argument;
pub use line::{CommandLine, FileName, Options, name_of};
pub use program_make::{SIZE_LIMIT, make};
pub use read::{read_command_line, refused};
pub use run_trace::Settings;
