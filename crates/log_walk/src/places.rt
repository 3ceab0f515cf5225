// The places of each task's strands in the serial order.

ghost use Rattle.std.specs.Prelude.{◌≡◌, IfOk, length};
ghost use Rattle.fork_graph.specs.Graph.{tasks_in};
ghost use Rattle.log_walk.specs.Places.{joined_before, mark_of, child_noted, AreMarkedOnce, AreMarkPlaces};

use crate::order::turn_after;
use fork_graph::{GraphStrand, GraphTurn};
use plain_vec::Listed;
use std::alloc::{AllocError, Global};

/// What a strand is to a task.
#[derive(Clone, Copy)]
pub(crate) enum Mark {
    /// The task's first strand.
    First,
    /// The task's last strand.
    Last,
    /// Its parent's strand that follows its join.
    Joined,
}

/// For each task the place in the order of the strand that has the mark for it.
pub(crate) fn places_of(
    alloc: Global,
    tasks: &Listed<Listed<GraphTurn>>,
    order: &Listed<GraphStrand>,
    mark: Mark,
) -> Result<Listed<usize>, AllocError>
    requires { AreMarkedOnce (tasks_in tasks.now) order.now mark }
    ensures { IfOk result (AreMarkPlaces (tasks_in tasks.now) (length tasks.now) order.now mark (length order.now)) }
{
    let mut places = Listed::from_vec(vec![in alloc; 0; tasks.len()]?);
    for place in 0..order.len() {
        let strand = *order.at(place);
        note(tasks, strand, mark, place, &mut places);
    }
    Ok(places)
}

// Notes the place of a strand for the task for which it has the mark.
fn note(
    tasks: &Listed<Listed<GraphTurn>>,
    strand: GraphStrand,
    mark: Mark,
    place: usize,
    places: &mut Listed<usize>,
)
    ensures { places.new ≡ child_noted places.old place (mark_of (tasks_in tasks.now) mark strand) }
{
    if let Some(task) = marked(tasks, strand, mark) {
        let at = task as usize;
        if at < places.len() {
            places.set(at, place);
        }
    }
}

// The task for which the strand has the mark.
fn marked(tasks: &Listed<Listed<GraphTurn>>, strand: GraphStrand, mark: Mark) -> Option<u32>
    ensures { result ≡ mark_of (tasks_in tasks.now) mark strand }
{
    match mark {
        Mark::First if strand.index == 0 => Some(strand.task),
        Mark::First => None,
        Mark::Last => match turn_after(tasks, strand) {
            None => Some(strand.task),
            Some(_) => None,
        },
        Mark::Joined => joined_before(tasks, strand),
    }
}

// The child that the turn before a strand joined.
fn joined_before(tasks: &Listed<Listed<GraphTurn>>, strand: GraphStrand) -> Option<u32>
    ensures { result ≡ joined_before (tasks_in tasks.now) strand }
{
    if strand.index == 0 {
        return None;
    }
    let before = GraphStrand {
        task: strand.task,
        index: strand.index - 1,
    };
    match turn_after(tasks, before) {
        Some(GraphTurn::Join(child)) => Some(child),
        _ => None,
    }
}
