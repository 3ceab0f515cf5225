// The births of blocks.

ghost use Rattle.std.specs.Prelude.{◌<◌, length};
ghost use Rattle.log_heaps.specs.Tally.{IsBirthAt};

use log_strands::Act;
use log_walk::SerialWalk;

/// A birth of a block by a strand of the graph.
#[derive(Clone, Copy)]
pub struct BlockBirth {
    pub block: u64,
    /// The number of the act, counted over all files of the log from 0.
    pub line: u32,
    pub words: u64,
    /// The depth of the task.
    pub depth: u32,
}

/// The birth that an act is.
pub(crate) fn birth_at(walk: &SerialWalk, act: Act, place: usize, line: u32) -> Option<BlockBirth>
    requires { place < length walk.now.order }
    ensures { IsBirthAt walk.now act place line result }
{
    match act {
        Act::Birth { block, length } => Some(BlockBirth {
            block,
            line,
            words: length,
            depth: walk.depth(place),
        }),
        _ => None,
    }
}
