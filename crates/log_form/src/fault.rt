// Why a log is refused.

use log_lines::LogCause;

/// Why a line of a log is refused.
#[derive(Clone, Copy, PartialEq, Eq)]
pub enum LogFault {
    /// It is no line.
    NoLine(LogCause),
    /// A file doesn't begin with its version, or a version stands elsewhere.
    NoVersion,
    /// It stands behind the end of its file.
    AfterEnd,
    /// It says what a strand does, and no strand is open.
    NoStrand,
    /// Its strand has ended.
    StrandEnded,
    /// It spawns a task that was spawned already, or the root.
    SpawnedTwice,
    /// A block is born that was born already.
    BornTwice,
    /// A block is released that was released already.
    ReleasedTwice,
}

/// A line of a log: the number of its file, from 0, and that of the line, from 1.
#[derive(Clone, Copy, PartialEq, Eq)]
pub struct LogPosition {
    pub file: usize,
    pub line: usize,
}

/// A fault, and the line at which it stands.
#[derive(Clone, Copy, PartialEq, Eq)]
pub struct LocatedFault {
    pub at: LogPosition,
    pub fault: LogFault,
}
