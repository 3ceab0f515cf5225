// The status of a task.

/// The status of a task.
#[derive(Clone, Copy, PartialEq, Eq)]
pub enum TaskState {
    /// A worker may take it.
    Ready,
    /// A worker runs it.
    Out,
    /// It has forked, and its children haven't both ended.
    Waiting,
    /// A child that has ended, and whose sibling hasn't.
    Ended,
    /// A child whose heap its parent has taken over.
    Joined,
}
