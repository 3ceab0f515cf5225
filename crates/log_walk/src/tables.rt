// What is known of the strands of a run by their places in the serial order.

ghost use Rattle.std.specs.Prelude.{◌≡◌, ◌<◌, ◌≤◌, ◌↔◌, IsTrue, IfNone, IfSome, length};
ghost use Rattle.fork_graph.specs.Graph.{tasks_in, IsAncestor, StrandPrecedes};
ghost use Rattle.jump_pointers.specs.Lists.{depth_at, up_from};
ghost use Rattle.log_walk.specs.Tables.{strand_at, task_at, AreTables, IsNextUp, IsTop};
ghost use Rattle.log_walk.specs.Meetings.{IsDepthAt, IsExitAt};

use fork_graph::{GraphStrand, GraphTurn};
use jump_pointers::{FarLinks, Link};
use plain_vec::Listed;

/// A run's strands in their serial order, with their links; and by task the places of its first strand, of its last,
/// and of the one that follows its join.
#[derive(Drop)]
pub(crate) struct Tables {
    pub(crate) order: Listed<GraphStrand>,
    pub(crate) links: Vec<Link>,
    pub(crate) firsts: Listed<usize>,
    pub(crate) lasts: Listed<usize>,
    pub(crate) afters: Listed<usize>,
}

// Whether the task at one place is that at another or an ancestor of it.
fn is_above(_tasks: &Listed<Listed<GraphTurn>>, tables: &Tables, upper: usize, lower: usize) -> bool
    requires tables { AreTables _tasks.now tables.now }
    requires upper { upper < length tables.now.order }
    requires lower { lower < length tables.now.order }
    ensures { IsTrue result ↔ IsAncestor (tasks_in _tasks.now) (task_at tables.now.order upper) (task_at tables.now.order lower) }
{
    let task = tables.order.at(upper).task as usize;
    let first = *tables.firsts.at(task);
    let last = *tables.lasts.at(task);
    is_between(first, lower, last)
}

fn is_between(first: usize, place: usize, last: usize) -> bool
    ensures { IsTrue result ↔ ((first ≤ place) × (place ≤ last)) }
{
    first <= place && place <= last
}

// The next place on the way up from one whose task isn't above the target's, unless the next task is above it.
fn next_up(
    tasks: &Listed<Listed<GraphTurn>>,
    tables: &Tables,
    at: usize,
    target: usize,
) -> Option<usize>
    requires tables { AreTables tasks.now tables.now }
    requires at { at < length tables.now.order }
    requires target { target < length tables.now.order }
    requires apart { IsAncestor (tasks_in tasks.now) (task_at tables.now.order at) (task_at tables.now.order target) → ⊥ }
    ensures top { IfNone result (IsTop tasks.now tables.now at target) }
    ensures next { IfSome result (IsNextUp tasks.now tables.now at target) }
{
    let link = tables.links.link(at);
    if !is_above(tasks, tables, link.far, target) {
        return Some(link.far);
    }
    match link.parent {
        Some(parent) if !is_above(tasks, tables, parent, target) => Some(parent),
        _ => None,
    }
}

// The last place on the way up whose task isn't above the target's.
fn climb(tasks: &Listed<Listed<GraphTurn>>, tables: &Tables, place: usize, target: usize) -> usize
    requires tables { AreTables tasks.now tables.now }
    requires place { place < length tables.now.order }
    requires target { target < length tables.now.order }
    requires apart { IsAncestor (tasks_in tasks.now) (task_at tables.now.order place) (task_at tables.now.order target) → ⊥ }
    ensures there { result < length tables.now.order }
    ensures above { IsAncestor (tasks_in tasks.now) (task_at tables.now.order result) (task_at tables.now.order place) }
    ensures apart { IsAncestor (tasks_in tasks.now) (task_at tables.now.order result) (task_at tables.now.order target) → ⊥ }
    ensures top { IsTop tasks.now tables.now result target }
{
    let mut at = place;
    while let Some(up) = next_up(tasks, tables, at, target) {
        at = up;
    }
    at
}

/// Where the way of the strand at one place comes into the lowest common ancestor of its task and that of another one.
pub(crate) fn exit(
    tasks: &Listed<Listed<GraphTurn>>,
    tables: &Tables,
    first: usize,
    second: usize,
) -> usize
    requires tables { AreTables tasks.now tables.now }
    requires first { first < length tables.now.order }
    requires second { second < length tables.now.order }
    ensures is { IsExitAt (tasks_in tasks.now) tables.now.order first second result }
    ensures there { result < length tables.now.order }
    ensures tells { StrandPrecedes (tasks_in tasks.now) (strand_at tables.now.order first) (strand_at tables.now.order second) ↔ (result ≤ second) }
{
    if is_above(tasks, tables, first, second) {
        return first;
    }
    let top = climb(tasks, tables, first, second);
    *tables.afters.at(tables.order.at(top).task as usize)
}

/// Whether the strand at one place precedes that at another.
pub(crate) fn precedes(
    tasks: &Listed<Listed<GraphTurn>>,
    tables: &Tables,
    first: usize,
    second: usize,
) -> bool
    requires tables { AreTables tasks.now tables.now }
    requires first { first < length tables.now.order }
    requires second { second < length tables.now.order }
    ensures { IsTrue result ↔ StrandPrecedes (tasks_in tasks.now) (strand_at tables.now.order first) (strand_at tables.now.order second) }
{
    exit(tasks, tables, first, second) <= second
}

/// How many spawns lead from the root to the task of the strand at a place.
pub(crate) fn depth(_tasks: &Listed<Listed<GraphTurn>>, tables: &Tables, place: usize) -> u32
    requires tables { AreTables _tasks.now tables.now }
    requires place { place < length tables.now.order }
    ensures { IsDepthAt (tasks_in _tasks.now) tables.now.order place result }
{
    tables.links.link(place).depth as u32
}
