// Whether tasks and strands have numbers of 32 bits.

ghost use Rattle.std.specs.Prelude.{◌≡◌, ◌↔◌, IsTrue};
ghost use Rattle.fork_graph.specs.Graph.{AreSmall};

use crate::graph::GraphTurn;
use plain_vec::Listed;

// How many numbers have 32 bits.
const NUMBERS: usize = 1 << 32;

/// Whether each task has a number of 32 bits, and each of its strands.
pub fn are_small(tasks: &Listed<Listed<GraphTurn>>) -> bool
    ensures { IsTrue result ↔ AreSmall tasks.now }
{
    let count = tasks.len();
    if count > NUMBERS {
        return false;
    }
    for task in 0..count {
        let turns = tasks.at(task);
        if turns.len() >= NUMBERS {
            return false;
        }
    }
    true
}
