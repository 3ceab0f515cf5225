// A run's strands in their serial order, and which of them precede which.

ghost use Rattle.std.specs.Prelude.{◌≡◌, ◌<◌, ◌↔◌, IfOk, IsTrue, length};
ghost use Rattle.fork_graph.specs.Graph.{AreSmall, tasks_in, StrandPrecedes};
ghost use Rattle.fork_graph.specs.Nested.{IsNested};
ghost use Rattle.fork_graph.specs.Faults.{SpawnsBelow};
ghost use Rattle.ancestor_laws.specs.Serial.{serial_order};
ghost use Rattle.log_walk.specs.Tables.{strand_at, AreTables};
ghost use Rattle.log_walk.specs.Meetings.{IsDepthAt, IsExitAt};
ghost use Rattle.log_walk.specs.Value.{IsWalked};

use crate::links::spawn_links;
use crate::order::serial_order;
use crate::places::{Mark, places_of};
use crate::tables::{Tables, depth, exit, precedes};
use fork_graph::{GraphStrand, GraphTurn};
use plain_vec::Listed;
use std::alloc::{AllocError, Global};
use std::marker::Model;

/// A nested run with its strands in their serial order. It takes a row for each strand that a walk leads to from the
/// root's first one; what isn't reached has no place in the order.
#[derive(Drop)]
pub struct SerialWalk<'t> {
    tasks: &'t Listed<Listed<GraphTurn>>,
    tables: Tables,
}

impl<'t> Model for SerialWalk<'t> {
    ghost use Rattle.log_walk.specs.Value.{WalkValue};
    ghost use Rattle.log_walk.specs.Tables.{AreTables};

    ghost Value = { WalkValue };

    ghost view = { λ w. record { tasks = w.tasks.now; order = w.tables.order } };

    ghost invariant = { λ w. AreTables w.tasks.now w.tables };
}

impl<'t> SerialWalk<'t> {
    /// Walks over a run. It takes time and memory by the number of its strands.
    pub fn new(
        alloc: Global,
        tasks: &'t Listed<Listed<GraphTurn>>,
    ) -> Result<SerialWalk<'t>, AllocError>
        requires small { AreSmall tasks.now }
        requires some { 0 < length tasks.now }
        requires nested { IsNested (tasks_in tasks.now) }
        requires below { SpawnsBelow (tasks_in tasks.now) (length tasks.now) }
        ensures { IfOk result (λ walk. walk ≡ record { tasks = tasks.entry.now; order = serial_order (tasks_in tasks.entry.now) (length tasks.entry.now) }) }
    {
        let tables = tables_of(alloc, tasks)?;
        Ok(SerialWalk { tasks, tables })
    }

    /// The strands in their serial order. A strand's place in it is its serial number.
    pub fn order(&self) -> &[GraphStrand]
        ensures order { result.now ≡ self.now.order }
        ensures walked { IsWalked self.now }
    {
        self.tables.order.as_slice()
    }

    /// Whether the strand of one serial number precedes that of another, or is the same. It takes time by the
    /// logarithm of the first one's depth.
    pub fn precedes(&self, first: usize, second: usize) -> bool
        requires first { first < length self.now.order }
        requires second { second < length self.now.order }
        ensures { IsTrue result ↔ StrandPrecedes (tasks_in self.now.tasks) (strand_at self.now.order first) (strand_at self.now.order second) }
    {
        precedes(self.tasks, &self.tables, first, second)
    }

    /// Where the way of the strand of one serial number comes into the lowest common ancestor of its task and that of
    /// another one: the serial number of a strand of that ancestor, which is the strand itself or follows a join. It
    /// takes time by the logarithm of the first one's depth.
    pub fn exit(&self, first: usize, second: usize) -> usize
        requires first { first < length self.now.order }
        requires second { second < length self.now.order }
        ensures is { IsExitAt (tasks_in self.now.tasks) self.now.order first second result }
        ensures there { result < length self.now.order }
    {
        exit(self.tasks, &self.tables, first, second)
    }

    /// How many spawns lead from the root to the task of the strand of a serial number.
    pub fn depth(&self, strand: usize) -> u32
        requires { strand < length self.now.order }
        ensures { IsDepthAt (tasks_in self.now.tasks) self.now.order strand result }
    {
        depth(self.tasks, &self.tables, strand)
    }
}

// Makes the tables of a run.
fn tables_of(alloc: Global, tasks: &Listed<Listed<GraphTurn>>) -> Result<Tables, AllocError>
    requires small { AreSmall tasks.now }
    requires some { 0 < length tasks.now }
    requires nested { IsNested (tasks_in tasks.now) }
    requires below { SpawnsBelow (tasks_in tasks.now) (length tasks.now) }
    ensures { IfOk result (AreTables tasks.now) }
{
    let order = serial_order(alloc, tasks)?;
    let firsts = places_of(alloc, tasks, &order, Mark::First)?;
    let lasts = places_of(alloc, tasks, &order, Mark::Last)?;
    let afters = places_of(alloc, tasks, &order, Mark::Joined)?;
    let links = spawn_links(alloc, &order, &firsts)?;
    Ok(Tables {
        order,
        links,
        firsts,
        lasts,
        afters,
    })
}
