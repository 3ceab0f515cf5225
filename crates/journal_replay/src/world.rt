// The whole state as one value: the shared value and what every worker holds, to which entries are applied one by one.

ghost use Rattle.std.specs.Prelude.{◌≡◌, [], IfOk, false, replicate};
ghost use Rattle.heap_reading.specs.below.core_invariant.{IsSharedValue};
ghost use Rattle.journal_replay.specs.Applied.{AppliesTo};
ghost use Rattle.journal_replay.specs.Together.{StandsTogether};
ghost use Rattle.journal_replay.specs.WorldValue.{IsWhole};

use crate::apply::make_entry;
use crate::out_part::OutPart;
use heap_reading::Listed;
use legal_calls::{BlockSource, Entry, LegalCalls, NotEntered, Program, Refused, Settings};
use std::alloc::{AllocError, Global};
use std::marker::Model;

/// Why an entry wasn't applied. The world has then stopped.
#[derive(Clone, Copy)]
pub enum NotApplied {
    /// The world had stopped: an earlier entry was refused, or ran out of memory.
    Stopped,
    /// The entry is refused.
    Refuses(Refused),
    /// Out of memory.
    NoMemory,
}

/// The shared value and what every worker holds, all in one place: entries are applied one by one.
#[derive(Drop)]
pub struct World<S: LegalCalls> {
    shared: S,
    holdings: Listed<OutPart>,
    stopped: bool,
    // A block for a part that is taken or given up.
    blocks: BlockSource,
}

impl<S: LegalCalls> Model for World<S> {
    ghost use Rattle.journal_replay.specs.WorldValue.{IsWhole, WorldValue};

    ghost Value = { WorldValue };

    ghost view = { λ s. record { shared = S.value s.shared; holdings = s.holdings; stopped = s.stopped } };

    ghost invariant = { λ s. IsWhole (record { shared = S.value s.shared; holdings = s.holdings; stopped = s.stopped }) };
}

// Holdings of nothing.
fn empty_holdings(alloc: Global, workers: u32) -> Result<Listed<OutPart>, AllocError>
    ensures { IfOk result (λ holdings. holdings ≡ replicate workers OutPart.Nothing) }
{
    let mut holdings = Listed::new(alloc);
    for _ in 0..workers {
        holdings.push(OutPart::Nothing)?;
    }
    Ok(holdings)
}

impl<S: LegalCalls + Drop> World<S> {
    /// Before the first entry.
    pub fn start(
        alloc: Global,
        program: &Program,
        settings: Settings,
    ) -> Result<World<S>, AllocError>
        ensures program { IfOk result (λ x. x.shared.program ≡ program.now) }
        ensures settings { IfOk result (λ x. x.shared.settings ≡ settings) }
        ensures journal { IfOk result (λ x. x.shared.journal.items ≡ []) }
        ensures goes { IfOk result (λ x. x.stopped ≡ false) }
    {
        let shared = S::new(alloc, program, settings)?;
        shared.stands();
        let holdings = empty_holdings(alloc, settings.workers())?;
        Ok(World {
            shared,
            holdings,
            stopped: false,
            blocks: BlockSource::new(alloc),
        })
    }

    /// Applies an entry. After one is refused or runs out of memory the world has stopped, and applies no other.
    pub fn apply(&mut self, entry: Entry) -> Result<(), NotApplied>
        ensures { AppliesTo self.old self.new entry result }
    {
        if self.stopped {
            return Err(NotApplied::Stopped);
        }
        match make_entry(
            &mut self.shared,
            &mut self.holdings,
            &mut self.blocks,
            entry,
        ) {
            Ok(()) => Ok(()),
            Err(NotEntered::Refuses(cause)) => {
                self.stopped = true;
                Err(NotApplied::Refuses(cause))
            }
            Err(NotEntered::NoMemory) => {
                self.stopped = true;
                Err(NotApplied::NoMemory)
            }
        }
    }

    /// The invariant of every world: the shared value stands for its journal, which is legal, and what each worker
    /// holds fits it; with the belongings of all parts put into it, it stands for its accounts.
    pub fn stands(&self)
        ensures shared { IsSharedValue self.now.shared }
        ensures whole { IsWhole self.now }
        ensures together { StandsTogether self.now }
    {
        self.shared.stands();
    }

    /// The shared value alone. What the workers hold is dropped.
    pub fn into_shared(self) -> S
        ensures { S.value result ≡ self.shared }
    {
        let World {
            shared,
            holdings: _,
            stopped: _,
            blocks: _,
        } = self;
        shared
    }

    /// Whether an entry was refused, or ran out of memory.
    pub fn has_stopped(&self) -> bool
        ensures { result ≡ self.now.stopped }
    {
        self.stopped
    }

    /// The shared value, to be read: its journal, its end, and its outputs.
    pub fn shared(&self) -> &S
        ensures { S.value result.now ≡ self.now.shared }
    {
        &self.shared
    }
}
