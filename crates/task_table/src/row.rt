// What a journal tells of a task.

/// The fork by which a task was made.
#[derive(Clone, Copy)]
pub struct ForkOrigin {
    /// The line that it stands on.
    pub line: u32,
    /// The function that the task was made for.
    pub function: u32,
    /// Of half a parallel loop the number that it begins with.
    pub number: Option<i64>,
}

/// What the entries of a journal tell of a task.
#[derive(Clone, Copy)]
pub struct TaskRow {
    /// The fork by which it was made; None for the first task.
    pub fork: Option<ForkOrigin>,
    /// The worker that took it first.
    pub worker: Option<u32>,
    pub entries: u64,
    pub steps: u64,
    /// The words that collections of its heap dropped.
    pub dropped: u64,
}
