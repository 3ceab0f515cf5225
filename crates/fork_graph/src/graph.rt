// Tasks' turns and strands.

/// What ends a strand of a task: the task spawns a child or joins one.
#[derive(Clone, Copy)]
pub enum GraphTurn {
    /// A new task, of this number, runs beside its parent.
    Spawn(u32),
    /// The task waits until its child of this number has ended.
    Join(u32),
}

/// A stretch of a task's run without a spawn or a join. Strand `index` of a task stands before its turn `index`, and
/// the last strand after all turns.
#[derive(Clone, Copy)]
pub struct GraphStrand {
    /// The task's number.
    pub task: u32,
    /// The number of turns that the task has taken before.
    pub index: u32,
}
