// Why a log's tasks are refused.

ghost use Rattle.std.specs.Prelude.{◌≡◌, List, IfOk, MatchOption, length, option_map};
ghost use Rattle.fork_graph.specs.Graph.{AreSmall};
ghost use Rattle.fork_graph.specs.Faults.{IsSoundRun};
ghost use Rattle.log_form.specs.Events.{Event};
ghost use Rattle.log_tasks.specs.Told.{KnowsEvents};
ghost use Rattle.log_tasks.specs.Faults.{rank_of, HasNoneBelow, IsFirstOf};
ghost use Rattle.log_tasks.specs.EndCauses.{end_cause, NoneEndsBelow, IsFirstEndFault, task_cause, of_graph, is_sooner, sooner, sooner_of};
ghost use Rattle.log_tasks.specs.Spawning.{SpawnsWell};

use crate::told::Told;
use fork_graph::{Extent, GraphStrand, GraphTurn, StrandCause, StrandFault, first_fault};
use plain_vec::Listed;
use std::alloc::{AllocError, Global};

/// What is wrong with a task; of a task's causes the one that comes first here is reported.
#[derive(Clone, Copy, PartialEq, Eq)]
pub enum TaskCause {
    /// A strand ends in a join of what isn't a child that its task has spawned and not joined.
    JoinsNoOpenChild,
    /// In a log that isn't cut, the task has no end.
    HasNoEnd,
    /// In a log that isn't cut, the task ends and has a child that it hasn't joined.
    LeavesUnjoined,
    /// In a log that isn't cut, the root's spawns don't lead to the task.
    IsUnreached,
    /// In a log that isn't cut, the task has a strand after its end.
    GoesOnAfterEnd,
}

/// A fault of a task.
#[derive(Clone, Copy)]
pub struct TaskFault {
    /// The strand that is at fault: that which ends in the join, or else its task's last one.
    pub strand: GraphStrand,
    pub cause: TaskCause,
}

// What is wrong with a task of the log after its last turn.
fn end_cause(told: &Told, task: u32, last: u32) -> Option<TaskCause>
    ensures { result ≡ end_cause told.now task last }
{
    if told.ends.get(&(task, last)).is_none() {
        return Some(TaskCause::HasNoEnd);
    }
    match told.tops.get(&task) {
        Some(top) if last < *top => Some(TaskCause::GoesOnAfterEnd),
        _ => None,
    }
}

// The lowest task with which something is wrong after its last turn.
fn first_end_fault(
    told: &Told,
    numbers: &Listed<u32>,
    rows: &Listed<Listed<GraphTurn>>,
) -> Option<TaskFault>
    requires small { AreSmall rows.now }
    requires count { length rows.now ≡ length numbers.now }
    ensures { MatchOption result (NoneEndsBelow told.now numbers.now rows.now (length rows.now)) (IsFirstEndFault told.now numbers.now rows.now) }
{
    for task in 0..rows.len() {
        let last = rows.at(task).len() as u32;
        if let Some(cause) = end_cause(told, *numbers.at(task), last) {
            return Some(TaskFault {
                strand: GraphStrand {
                    task: task as u32,
                    index: last,
                },
                cause,
            });
        }
    }
    None
}

fn task_cause(cause: StrandCause) -> TaskCause
    ensures { result ≡ task_cause cause }
{
    match cause {
        StrandCause::SpawnsNoNewTask => TaskCause::JoinsNoOpenChild,
        StrandCause::JoinsNoOpenChild => TaskCause::JoinsNoOpenChild,
        StrandCause::LeavesUnjoined => TaskCause::LeavesUnjoined,
        StrandCause::IsUnreached => TaskCause::IsUnreached,
    }
}

// A fault of the graph as one of a task.
fn of_graph(fault: StrandFault) -> TaskFault
    ensures { result ≡ of_graph fault }
{
    TaskFault {
        strand: fault.strand,
        cause: task_cause(fault.cause),
    }
}

fn fault_of_graph(found: Option<StrandFault>) -> Option<TaskFault>
    ensures { result ≡ option_map of_graph found }
{
    match found {
        Some(fault) => Some(of_graph(fault)),
        None => None,
    }
}

// The place of a cause in the order in which a task's are reported.
fn rank_of(cause: TaskCause) -> u8
    ensures { result ≡ rank_of cause }
{
    match cause {
        TaskCause::JoinsNoOpenChild => 0,
        TaskCause::HasNoEnd => 1,
        TaskCause::LeavesUnjoined => 2,
        TaskCause::IsUnreached => 3,
        TaskCause::GoesOnAfterEnd => 4,
    }
}

fn is_sooner(one: TaskFault, other: TaskFault) -> bool
    ensures { result ≡ is_sooner one other }
{
    one.strand.task < other.strand.task
        || one.strand.task == other.strand.task && rank_of(one.cause) <= rank_of(other.cause)
}

// The one of two faults that is reported.
fn sooner(one: TaskFault, other: TaskFault) -> TaskFault
    ensures { result ≡ sooner one other }
{
    if is_sooner(one, other) { one } else { other }
}

fn sooner_of(one: Option<TaskFault>, other: Option<TaskFault>) -> Option<TaskFault>
    ensures { result ≡ sooner_of one other }
{
    match (one, other) {
        (None, other) => other,
        (Some(one), None) => Some(one),
        (Some(one), Some(other)) => Some(sooner(one, other)),
    }
}

/// The fault of the lowest task that has one; tasks are numbered without gaps.
pub(crate) fn first_task_fault(
    alloc: Global,
    told: &Told,
    numbers: &Listed<u32>,
    rows: &Listed<Listed<GraphTurn>>,
    extent: Extent,
) -> Result<Option<TaskFault>, AllocError>
    requires small { AreSmall rows.now }
    requires count { length rows.now ≡ length numbers.now }
    requires spawns { SpawnsWell rows.now }
    ensures { IfOk result (λ found. (events : List Event) → KnowsEvents told.now events
        → MatchOption found (IsSoundRun rows.now extent × HasNoneBelow events extent numbers.now rows.now (length rows.now)) (IsFirstOf events extent numbers.now rows.now)) }
{
    let found = first_fault(alloc, rows, extent)?;
    let graph = fault_of_graph(found);
    match extent {
        Extent::Cut => Ok(graph),
        Extent::Whole => {
            let own = first_end_fault(told, numbers, rows);
            Ok(sooner_of(graph, own))
        }
    }
}
