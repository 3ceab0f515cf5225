// The turns that a log tells of its tasks.

ghost use Rattle.std.specs.Prelude.{◌≡◌, ◌<◌, IfOk, length};
ghost use Rattle.std.specs.List.Sorted.{IsStrictlyIncreasing};
ghost use Rattle.log_lines.specs.Limits.{strand_limit};
ghost use Rattle.fork_graph.specs.Graph.{AreSmall};
ghost use Rattle.log_tasks.specs.Told.{turn_told, HasSmallTurns, IsToldRow, AreToldRows};

use crate::ending::StrandEnd;
use crate::numbers::renumbered;
use crate::told::Told;
use fork_graph::GraphTurn;
use plain_vec::Listed;
use std::alloc::{AllocError, Global};

/// No strand has a greater number.
const LAST_STRAND: u32 = (1 << 31) - 1;

// The turn that ends a strand of the log, of tasks numbered without gaps.
fn turn_at(told: &Told, numbers: &[u32], task: u32, index: u32) -> Option<GraphTurn>
    requires { IsStrictlyIncreasing numbers.now }
    ensures { result ≡ turn_told told.now numbers.now task index }
{
    match told.ends.get(&(task, index)) {
        Some(StrandEnd::Turns(turn)) => Some(renumbered(numbers, *turn)),
        _ => None,
    }
}

// The turns of a task of the log.
fn row_of(
    alloc: Global,
    told: &Told,
    numbers: &[u32],
    task: u32,
) -> Result<Listed<GraphTurn>, AllocError>
    requires numbers { IsStrictlyIncreasing numbers.now }
    requires small { HasSmallTurns told.now }
    ensures row { IfOk result (IsToldRow told.now numbers.now task) }
    ensures short { IfOk result (λ row. length row < strand_limit) }
{
    let mut row = Listed::new(alloc);
    for index in 0..LAST_STRAND {
        match turn_at(told, numbers, task, index) {
            Some(turn) => row.push(turn)?,
            None => return Ok(row),
        }
    }
    Ok(row)
}

/// The turns of all tasks.
pub(crate) fn rows_of(
    alloc: Global,
    told: &Told,
    numbers: &[u32],
) -> Result<Listed<Listed<GraphTurn>>, AllocError>
    requires numbers { IsStrictlyIncreasing numbers.now }
    requires small { HasSmallTurns told.now }
    ensures rows { IfOk result (AreToldRows told.now numbers.now) }
    ensures small { IfOk result AreSmall }
{
    let mut rows = Listed::new(alloc);
    for task in numbers {
        let row = row_of(alloc, told, numbers, *task)?;
        rows.push(row)?;
    }
    Ok(rows)
}
