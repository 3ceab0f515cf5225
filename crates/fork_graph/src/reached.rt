// Which tasks the root's spawns lead to.

ghost use Rattle.std.specs.Prelude.{◌≡◌, [], IfOk, OnOk, length, replicate, false};
ghost use Rattle.fork_graph.specs.Graph.{tasks_in};
ghost use Rattle.fork_graph.specs.SpawnSearch.{meet, meet_child, meet_children, AreReached};

use crate::graph::GraphTurn;
use plain_vec::Listed;
use std::alloc::{AllocError, Global};

/// A search from the root along spawns.
#[derive(Drop)]
pub(crate) struct SpawnSearch {
    /// For each task whether it was met.
    pub(crate) met: Listed<bool>,
    /// Met tasks whose turns weren't looked at.
    pub(crate) waiting: Listed<u32>,
}

impl SpawnSearch {
    // Meets a task that is there.
    fn meet(&mut self, task: u32) -> Result<(), AllocError>
        ensures { OnOk result (self.new ≡ meet self.old task) }
    {
        let place = task as usize;
        if let Some(false) = self.met.get(place) {
            self.waiting.push(task)?;
            self.met.set(place, true);
        }
        Ok(())
    }

    // Meets the child that a turn spawns.
    fn meet_child(&mut self, turn: GraphTurn) -> Result<(), AllocError>
        ensures { OnOk result (self.new ≡ meet_child self.old turn) }
    {
        match turn {
            GraphTurn::Spawn(child) => self.meet(child),
            GraphTurn::Join(_) => Ok(()),
        }
    }

    // Meets the children that turns spawn.
    fn meet_children(&mut self, turns: &[GraphTurn]) -> Result<(), AllocError>
        ensures { OnOk result (self.new ≡ meet_children self.old turns.now) }
    {
        for turn in turns {
            self.meet_child(*turn)?;
        }
        Ok(())
    }

    // Meets the children of a task.
    fn follow(&mut self, tasks: &Listed<Listed<GraphTurn>>, task: u32) -> Result<(), AllocError>
        ensures { OnOk result (self.new ≡ meet_children self.old (tasks_in tasks.now task)) }
    {
        match tasks.get(task as usize) {
            Some(turns) => self.meet_children(turns.as_slice()),
            None => Ok(()),
        }
    }
}

// No task was met.
fn none_met(alloc: Global, count: usize) -> Result<SpawnSearch, AllocError>
    ensures { IfOk result (λ search. search ≡ record { met = replicate count false; waiting = [] }) }
{
    Ok(SpawnSearch {
        met: Listed::from_vec(vec![in alloc; false; count]?),
        waiting: Listed::new(alloc),
    })
}

/// For each task whether the root's spawns lead to it.
pub(crate) fn reached_tasks(
    alloc: Global,
    tasks: &Listed<Listed<GraphTurn>>,
) -> Result<Listed<bool>, AllocError>
    ensures { IfOk result (AreReached (tasks_in tasks.now) (length tasks.now)) }
{
    let mut search = none_met(alloc, tasks.len())?;
    search.meet(0)?;
    while let Some(task) = search.waiting.pop() {
        search.follow(tasks, task)?;
    }
    Ok(search.met)
}
