// A list of entries is replayed from the start.

ghost use Rattle.std.specs.Prelude.{◌≡◌, [], IfOk, false};
ghost use Rattle.journal_replay.specs.Replay.{ReplayGives};

use crate::world::{NotApplied, World};
use heap_reading::RefusedAt;
use legal_calls::{Entry, LegalCalls, Program, Settings};
use std::alloc::{AllocError, Global};

/// Why a replay stopped before the last entry. `W` is the world.
#[derive(Drop)]
pub enum ReplayStop<W> {
    /// An entry is refused: its number, counted from 1, and why.
    RefusedAt(RefusedAt),
    /// An allocation for an entry failed: the world after the entries before it.
    NoMemory(W),
}

impl<S: LegalCalls + Drop> World<S> {
    /// Applies entries one by one, from the first on, up to the first that is refused. It is called before any entry
    /// was applied. A failed allocation loses nothing: the world is returned as far as it came.
    pub fn replay(self, entries: &[Entry]) -> Result<World<S>, ReplayStop<World<S>>>
        requires first { self.shared.journal.items ≡ [] }
        requires goes { self.stopped ≡ false }
        ensures { ReplayGives self.shared.program self.shared.settings entries.now result }
    {
        let mut world = self;
        let mut index: u64 = 1;
        for entry in entries {
            match world.apply(*entry) {
                Ok(()) => {}
                Err(NotApplied::Refuses(cause)) => {
                    return Err(ReplayStop::RefusedAt(RefusedAt { index, cause }));
                }
                Err(NotApplied::NoMemory) => {
                    world.stands();
                    return Err(ReplayStop::NoMemory(world));
                }
                Err(NotApplied::Stopped) => unreachable!(),
            }
            index += 1;
        }
        Ok(world)
    }
}

/// Applies entries to a new world, as `World::replay`. `AllocError`: an allocation for the start failed, and no entry
/// was applied.
pub fn replay<S: LegalCalls + Drop>(
    alloc: Global,
    program: &Program,
    settings: Settings,
    entries: &[Entry],
) -> Result<Result<World<S>, ReplayStop<World<S>>>, AllocError>
    ensures { IfOk result (ReplayGives program.now settings entries.now) }
{
    let world = World::start(alloc, program, settings)?;
    Ok(world.replay(entries))
}
