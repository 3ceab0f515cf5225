// The tasks of a log.

ghost use Rattle.std.specs.Prelude.{◌≡◌, ◌<◌, IfOk, IfErr, None, length};
ghost use Rattle.log_form.specs.Events.{events_of};
ghost use Rattle.log_form.specs.Faults.{log_fault};
ghost use Rattle.log_pieces.specs.Pieces.{events_of_pieces};
ghost use Rattle.log_tasks.specs.Told.{KnowsEvents};
ghost use Rattle.log_tasks.specs.Faults.{in_log};
ghost use Rattle.log_tasks.specs.Faults.{IsFirstTaskFault};
ghost use Rattle.log_tasks.specs.Log.{IsLog};
ghost use Rattle.or_no_memory.specs.Refusals.{OnRefused};

use crate::fault::{TaskFault, first_task_fault};
use crate::graph::{graph_of, lengths};
use crate::numbers::numbers_of;
use crate::rows::rows_of;
use crate::told::Told;
use fork_graph::{Extent, GraphStrand, GraphTurn};
use log_pieces::LogPiece;
use or_no_memory::OrNoMemory;
use plain_vec::Listed;
use std::alloc::{AllocError, Global};

/// The tasks of a log, numbered from 0 on without gaps; the root is task 0.
#[derive(Drop)]
pub struct LogTasks {
    /// The number that the log gives to each task, in ascending order.
    pub numbers: Listed<u32>,
    /// The turns of each task. In a cut log they end with joins of what the task left unjoined, last spawned first.
    pub turns: Listed<Listed<GraphTurn>>,
    /// How many turns the log tells of each task; its strands past these do nothing.
    pub known: Listed<usize>,
}

// What the pieces tell.
fn told_of(alloc: Global, texts: &[Listed<u8>], pieces: &[LogPiece]) -> Result<Told, AllocError>
    ensures { IfOk result (λ told. KnowsEvents told (events_of_pieces texts.now pieces.now)) }
{
    let mut told = Told::new(alloc, pieces.len())?;
    told.take_pieces(texts, pieces)?;
    Ok(told)
}

// The fault as one of the log's strands.
fn in_log(numbers: &Listed<u32>, fault: TaskFault) -> TaskFault
    requires { fault.strand.task < length numbers.now }
    ensures { result ≡ in_log numbers.now fault }
{
    TaskFault {
        strand: GraphStrand {
            task: *numbers.at(fault.strand.task as usize),
            index: fault.strand.index,
        },
        cause: fault.cause,
    }
}

/// The tasks of a log that has no faulty line, by its pieces; or the first task that is at fault.
pub fn log_tasks(
    alloc: Global,
    texts: &[Listed<u8>],
    pieces: &[LogPiece],
    extent: Extent,
) -> Result<LogTasks, OrNoMemory<TaskFault>>
    requires whole { log_fault texts.now ≡ None }
    requires pieces { events_of_pieces texts.now pieces.now ≡ events_of texts.now }
    ensures tasks { IfOk result (IsLog (events_of texts.now) extent) }
    ensures refused { IfErr result (OnRefused (IsFirstTaskFault (events_of texts.now) extent)) }
{
    let told = told_of(alloc, texts, pieces)?;
    let numbers = numbers_of(alloc, &told.tasks)?;
    let rows = rows_of(alloc, &told, numbers.as_slice())?;
    if let Some(fault) = first_task_fault(alloc, &told, &numbers, &rows, extent)? {
        return Err(OrNoMemory::Refused(in_log(&numbers, fault)));
    }
    let known = lengths(alloc, &rows)?;
    let turns = graph_of(alloc, rows, extent)?;
    Ok(LogTasks {
        numbers,
        turns,
        known,
    })
}
