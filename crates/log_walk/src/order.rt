// The strands of a run in its serial order.

ghost use Rattle.std.specs.Prelude.{◌≡◌, ◌+◌, ◌<◌, ◌^◌, [], ◌∷◌, IfOk, OnOk, length, slice_get};
ghost use Rattle.fork_graph.specs.Graph.{AreSmall, tasks_in, first_of};
ghost use Rattle.fork_graph.specs.Nested.{IsNested};
ghost use Rattle.fork_graph.specs.Faults.{SpawnsBelow};
ghost use Rattle.ancestor_laws.specs.Serial.{serial_order};
ghost use Rattle.log_walk.specs.Walking.{visited};

use fork_graph::{GraphStrand, GraphTurn};
use plain_vec::Listed;
use std::alloc::{AllocError, Global};

/// A walk under way.
#[derive(Drop)]
pub(crate) struct Walk {
    /// The strands visited so far.
    pub(crate) order: Listed<GraphStrand>,
    /// The next strand of each task that isn't through, the innermost task's last.
    pub(crate) stack: Listed<GraphStrand>,
}

impl Walk {
    // A walk that begins with the root's first strand.
    fn start(alloc: Global) -> Result<Walk, AllocError>
        ensures { IfOk result (λ walk. walk ≡ record { order = []; stack = first_of 0 ∷ [] }) }
    {
        let mut stack = Listed::new(alloc);
        stack.push(GraphStrand { task: 0, index: 0 })?;
        Ok(Walk {
            order: Listed::new(alloc),
            stack,
        })
    }

    // Visits a strand that was taken from the stack.
    fn visit(
        &mut self,
        tasks: &Listed<Listed<GraphTurn>>,
        strand: GraphStrand,
    ) -> Result<(), AllocError>
        requires { AreSmall tasks.now }
        ensures { OnOk result (self.new ≡ visited (tasks_in tasks.now) self.old strand) }
    {
        self.order.push(strand)?;
        match turn_after(tasks, strand) {
            None => Ok(()),
            Some(GraphTurn::Join(_)) => self.stack.push(next_of(tasks, strand)),
            Some(GraphTurn::Spawn(child)) => {
                let first = GraphStrand {
                    task: child,
                    index: 0,
                };
                self.stack.push_pair(next_of(tasks, strand), first)
            }
        }
    }
}

/// The turn that ends a strand, if it isn't its task's last.
pub(crate) fn turn_after(
    tasks: &Listed<Listed<GraphTurn>>,
    strand: GraphStrand,
) -> Option<GraphTurn>
    ensures { result ≡ slice_get (tasks_in tasks.now strand.task) strand.index }
{
    match tasks.get(strand.task as usize) {
        Some(turns) => turns.get(strand.index as usize).copied(),
        None => None,
    }
}

// The task's strand past its turn.
fn next_of(tasks: &Listed<Listed<GraphTurn>>, strand: GraphStrand) -> GraphStrand
    requires small { AreSmall tasks.now }
    requires there { strand.index < length (tasks_in tasks.now strand.task) }
    ensures { result ≡ record { task = strand.task; index = strand.index + 1 } }
{
    GraphStrand {
        task: strand.task,
        index: strand.index + 1,
    }
}

/// The strands that walks lead to from the root's first one, in their serial order.
pub fn serial_order(
    alloc: Global,
    tasks: &Listed<Listed<GraphTurn>>,
) -> Result<Listed<GraphStrand>, AllocError>
    requires small { AreSmall tasks.now }
    requires some { 0 < length tasks.now }
    requires nested { IsNested (tasks_in tasks.now) }
    requires below { SpawnsBelow (tasks_in tasks.now) (length tasks.now) }
    ensures { IfOk result (λ order. order ≡ serial_order (tasks_in tasks.now) (length tasks.now)) }
{
    let mut walk = Walk::start(alloc)?;
    while let Some(strand) = walk.stack.pop() {
        walk.visit(tasks, strand)?;
    }
    Ok(walk.order)
}
