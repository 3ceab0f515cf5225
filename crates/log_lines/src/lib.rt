// One line of the log of a fork-join program: what it says, or why it is none.
#![tactic(auto)]

mod cause;
mod ends;
mod laws;
mod letter;
mod line;
mod number;
mod place;
mod read;
mod verb;
mod words;

pub use cause::LogCause;
pub use ends::{line_end, next_line};
pub use laws::{lines_are_read_again, lines_are_within_limits};
pub use letter::begins_with;
pub use line::{Access, AccessKind, Act, LogLine, LogPlace, Reference};
pub use number::read_number;
pub use read::read_line;
