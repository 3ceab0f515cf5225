// Limits of programs, of calls and forks, and of objects.

/// The most bytes of a program's text.
pub const PROGRAM_LIMIT: usize = 1048576;

/// The most frames of a task.
pub const FRAME_LIMIT: usize = 1000;

/// The most forks above a task.
pub const DEPTH_LIMIT: u32 = 1000;

/// The most fields of an object.
pub const MOST_FIELDS: u32 = 1_000_000;
