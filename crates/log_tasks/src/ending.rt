// How strands end.

use fork_graph::GraphTurn;

/// How a strand ends.
#[derive(Clone, Copy)]
pub enum StrandEnd {
    /// In a turn of its task, whose next strand follows. The turn's task has the log's number.
    Turns(GraphTurn),
    /// With its task.
    Finishes,
}
