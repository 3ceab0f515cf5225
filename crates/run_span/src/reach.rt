// The reach of each strand of a run: the greatest weight of a walk to it from the root's first strand.

ghost use Rattle.std.specs.Prelude.{◌≡◌, ◌+◌, ◌-◌, ◌<◌, ◌^◌, Some, [], IfOk, OnOk, length, sum, slice_get, replicate};
ghost use Rattle.fork_graph.specs.Graph.{tasks_in};
ghost use Rattle.fork_graph.specs.Nested.{IsNested};
ghost use Rattle.fork_graph.specs.Faults.{SpawnsBelow};
ghost use Rattle.ancestor_laws.specs.Serial.{serial_order};
ghost use Rattle.run_span.specs.Reaches.{entered, last_reach, latest_of, reach_before, turn_before, AreReachesOf, IsSpanOf};

use fork_graph::{GraphStrand, GraphTurn};
use plain_vec::Listed;
use std::alloc::{AllocError, Global};

/// What is known of reaches at some strand of the serial order.
#[derive(Drop)]
pub(crate) struct Reaches {
    /// The reach of each strand before it.
    pub(crate) all: Listed<u64>,
    /// The reach of each task's latest strand before it.
    pub(crate) latest: Listed<u64>,
}

impl Reaches {
    fn start(alloc: Global, count: usize) -> Result<Reaches, AllocError>
        ensures { IfOk result (λ reaches. reaches ≡ record { all = []; latest = replicate count 0 }) }
    {
        Ok(Reaches {
            all: Listed::new(alloc),
            latest: Listed::from_vec(vec![in alloc; 0; count]?),
        })
    }

    // The reach of a task's latest strand.
    fn latest_of(&self, task: u32) -> u64
        ensures { result ≡ latest_of self.now task }
    {
        match self.latest.get(task as usize) {
            Some(reach) => *reach,
            None => 0,
        }
    }

    // The greatest reach of what leads to the next strand.
    fn reach_before(&self, tasks: &Listed<Listed<GraphTurn>>, strand: GraphStrand) -> u64
        ensures { result ≡ reach_before (tasks_in tasks.now) self.now strand }
    {
        if strand.index == 0 {
            return self.last();
        }
        let own = self.latest_of(strand.task);
        match turn_before(tasks, strand) {
            Some(GraphTurn::Join(child)) => own.max(self.latest_of(child)),
            _ => own,
        }
    }

    // The reach of the strand that comes right before.
    fn last(&self) -> u64
        ensures { result ≡ last_reach self.now.all }
    {
        let count = self.all.len();
        if count == 0 {
            0
        } else {
            *self.all.at(count - 1)
        }
    }

    // Enters the reach of the next strand.
    fn enter(&mut self, strand: GraphStrand, reach: u64) -> Result<(), AllocError>
        ensures { OnOk result (self.new ≡ entered self.old strand reach) }
    {
        self.all.push(reach)?;
        let task = strand.task as usize;
        if task < self.latest.len() {
            self.latest.set(task, reach);
        }
        Ok(())
    }
}

// The turn before a strand that isn't its task's first.
fn turn_before(tasks: &Listed<Listed<GraphTurn>>, strand: GraphStrand) -> Option<GraphTurn>
    requires { 0 < strand.index }
    ensures { result ≡ turn_before (tasks_in tasks.now) strand }
{
    match tasks.get(strand.task as usize) {
        Some(turns) => turns.get(strand.index as usize - 1).copied(),
        None => None,
    }
}

/// The reach of each strand of a nested run, in the serial order: the greatest weight of a walk to it from the root's
/// first strand. The last one is the run's span.
pub fn reaches_of(
    alloc: Global,
    tasks: &Listed<Listed<GraphTurn>>,
    order: &[GraphStrand],
    weights: &[u64],
) -> Result<Listed<u64>, AllocError>
    requires some { 0 < length tasks.now }
    requires nested { IsNested (tasks_in tasks.now) }
    requires below { SpawnsBelow (tasks_in tasks.now) (length tasks.now) }
    requires order { order.now ≡ serial_order (tasks_in tasks.now) (length tasks.now) }
    requires weighed { length weights.now ≡ length order.now }
    requires fits { sum weights.now < 2 ^ 64 }
    ensures { IfOk result (AreReachesOf (tasks_in tasks.now) order.now weights.now) }
{
    let mut reaches = Reaches::start(alloc, tasks.len())?;
    for place in 0..order.len() {
        let strand = order[place];
        let weight = weights[place];
        let reach = reaches.reach_before(tasks, strand) + weight;
        reaches.enter(strand, reach)?;
    }
    Ok(reaches.all)
}

/// The span of a nested run, whose strands have these weights in the serial order: the greatest weight of a walk from
/// the root's first strand.
pub fn span_of(
    alloc: Global,
    tasks: &Listed<Listed<GraphTurn>>,
    order: &[GraphStrand],
    weights: &[u64],
) -> Result<u64, AllocError>
    requires some { 0 < length tasks.now }
    requires nested { IsNested (tasks_in tasks.now) }
    requires below { SpawnsBelow (tasks_in tasks.now) (length tasks.now) }
    requires order { order.now ≡ serial_order (tasks_in tasks.now) (length tasks.now) }
    requires weighed { length weights.now ≡ length order.now }
    requires fits { sum weights.now < 2 ^ 64 }
    ensures { IfOk result (IsSpanOf (tasks_in tasks.now) order.now weights.now) }
{
    let reaches = reaches_of(alloc, tasks, order, weights)?;
    Ok(final_reach(&reaches))
}

// The reach of the last strand.
fn final_reach(reaches: &Listed<u64>) -> u64
    requires { 0 < length reaches.now }
    ensures { slice_get reaches.now (length reaches.now - 1) ≡ Some result }
{
    *reaches.at(reaches.len() - 1)
}
