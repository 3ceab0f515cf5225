// Runs as tests write them down.

use fork_graph::GraphTurn;
use plain_vec::Listed;
use std::alloc::{AllocError, Global};

// The turns of each task.
pub type Table = &'static [&'static [GraphTurn]];

// The lists of a table.
pub fn lists(alloc: Global, table: Table) -> Result<Listed<Listed<GraphTurn>>, AllocError> {
    let mut tasks = Listed::new(alloc);
    for row in table {
        tasks.push(list(alloc, row)?)?;
    }
    Ok(tasks)
}

fn list(alloc: Global, row: &[GraphTurn]) -> Result<Listed<GraphTurn>, AllocError> {
    let mut turns = Listed::new(alloc);
    for turn in row {
        turns.push(*turn)?;
    }
    Ok(turns)
}
