// The first fault of a run's tasks.

ghost use Rattle.std.specs.Prelude.{◌≡◌, ◌+◌, ◌<◌, ◌↔◌, IfOk, MatchOption, IsTrue, length, Some, None};
ghost use Rattle.fork_graph.specs.Graph.{AreSmall, tasks_in, strand, last_of, IsAncestor};
ghost use Rattle.fork_graph.specs.Faults.{IsFault, IsSoundRun, HasNoEarlier, IsFirstFault};
ghost use Rattle.fork_graph.specs.Children.{AreStates};
ghost use Rattle.fork_graph.specs.Faults.{cause_of_turn};
ghost use Rattle.fork_graph.specs.declared.fault.Extent.TheVariants.{Whole};

use crate::children::{ChildState, leaves_open, none_spawned, take_turn};
use crate::graph::{GraphStrand, GraphTurn};
use crate::reached::reached_tasks;
use plain_vec::Listed;
use std::alloc::{AllocError, Global};

/// How much of a run's turns there is.
#[derive(Clone, Copy)]
pub enum Extent {
    /// All turns of all tasks.
    Whole,
    /// Of each task a first part of its turns.
    Cut,
}

/// What is wrong with a strand; of a strand's causes the one that comes first here is told.
#[derive(Clone, Copy)]
pub enum StrandCause {
    /// It ends in a spawn of the root, of a task that isn't there, or of one that an earlier strand spawned.
    SpawnsNoNewTask,
    /// It ends in a join of what isn't a child that its task has spawned and not joined.
    JoinsNoOpenChild,
    /// Its task ends with it, and has a child that it hasn't joined.
    LeavesUnjoined,
    /// Its task ends with it, and the root's spawns don't lead to the task.
    IsUnreached,
}

/// A strand with a fault.
#[derive(Clone, Copy)]
pub struct StrandFault {
    /// The strand; where the cause is one of its task's end, the task's last one.
    pub strand: GraphStrand,
    /// What is wrong with it.
    pub cause: StrandCause,
}

/// The first fault of the earliest strand that has one: of the lowest task, and of that task at its first such turn.
/// A cut run has faults of turns alone.
pub fn first_fault(
    alloc: Global,
    tasks: &Listed<Listed<GraphTurn>>,
    extent: Extent,
) -> Result<Option<StrandFault>, AllocError>
    requires { AreSmall tasks.now }
    ensures { IfOk result (λ found. MatchOption found (IsSoundRun tasks.now extent) (IsFirstFault tasks.now extent)) }
{
    let reached = reached_tasks(alloc, tasks)?;
    let mut states = none_spawned(alloc, tasks.len())?;
    for task in 0..tasks.len() {
        let fault = task_fault(tasks, task as u32, &mut states, extent, *reached.at(task));
        if fault.is_some() {
            return Ok(fault);
        }
    }
    Ok(None)
}

// The first fault of a task, where no task before it has one.
fn task_fault(
    tasks: &Listed<Listed<GraphTurn>>,
    task: u32,
    states: &mut Listed<ChildState>,
    extent: Extent,
    is_reached: bool,
) -> Option<StrandFault>
    requires small { AreSmall tasks.now }
    requires there { task < length tasks.now }
    requires states { AreStates (tasks_in tasks.now) (length tasks.now) (strand task 0) states.old }
    requires none { HasNoEarlier tasks.now extent (strand task 0) }
    requires reached { IsTrue is_reached ↔ IsAncestor (tasks_in tasks.now) 0 task }
    ensures { MatchOption result
        (AreStates (tasks_in tasks.now) (length tasks.now) (strand (task + 1) 0) states.new × HasNoEarlier tasks.now extent (strand (task + 1) 0))
        (IsFirstFault tasks.now extent) }
{
    if let Some(fault) = turn_fault(tasks, task, states, extent) {
        return Some(fault);
    }
    match extent {
        Extent::Whole => end_fault(tasks, task, states, is_reached),
        Extent::Cut => None,
    }
}

// The first fault of a task's turns.
fn turn_fault(
    tasks: &Listed<Listed<GraphTurn>>,
    task: u32,
    states: &mut Listed<ChildState>,
    extent: Extent,
) -> Option<StrandFault>
    requires small { AreSmall tasks.now }
    requires there { task < length tasks.now }
    requires states { AreStates (tasks_in tasks.now) (length tasks.now) (strand task 0) states.old }
    requires none { HasNoEarlier tasks.now extent (strand task 0) }
    ensures { MatchOption result
        (AreStates (tasks_in tasks.now) (length tasks.now) (last_of (tasks_in tasks.now) task) states.new × HasNoEarlier tasks.now extent (last_of (tasks_in tasks.now) task))
        (IsFirstFault tasks.now extent) }
{
    let turns = tasks.at(task as usize);
    for index in 0..turns.len() {
        let turn = *turns.at(index);
        if !take_turn(states, task, turn) {
            return Some(StrandFault {
                strand: GraphStrand {
                    task,
                    index: index as u32,
                },
                cause: cause_of_turn(turn),
            });
        }
    }
    None
}

// What is wrong with a turn that isn't allowed.
fn cause_of_turn(turn: GraphTurn) -> StrandCause
    ensures { result ≡ cause_of_turn turn }
{
    match turn {
        GraphTurn::Spawn(_) => StrandCause::SpawnsNoNewTask,
        GraphTurn::Join(_) => StrandCause::JoinsNoOpenChild,
    }
}

// What is wrong with the end of a task whose turns are all right.
fn end_fault(
    tasks: &Listed<Listed<GraphTurn>>,
    task: u32,
    states: &Listed<ChildState>,
    is_reached: bool,
) -> Option<StrandFault>
    requires small { AreSmall tasks.now }
    requires there { task < length tasks.now }
    requires states { AreStates (tasks_in tasks.now) (length tasks.now) (last_of (tasks_in tasks.now) task) states.now }
    requires none { HasNoEarlier tasks.now Whole (last_of (tasks_in tasks.now) task) }
    requires reached { IsTrue is_reached ↔ IsAncestor (tasks_in tasks.now) 0 task }
    ensures { MatchOption result (HasNoEarlier tasks.now Whole (strand (task + 1) 0)) (IsFirstFault tasks.now Whole) }
{
    let turns = tasks.at(task as usize);
    let strand = GraphStrand {
        task,
        index: turns.len() as u32,
    };
    if leaves_open(states, turns.as_slice()) {
        return Some(StrandFault {
            strand,
            cause: StrandCause::LeavesUnjoined,
        });
    }
    if !is_reached {
        return Some(StrandFault {
            strand,
            cause: StrandCause::IsUnreached,
        });
    }
    None
}
