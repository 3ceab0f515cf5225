// What the lines of a log so far have said, as far as no later line may say it again.

ghost use Rattle.std.specs.Prelude.{◌≡◌, ◌<◌, ◌==◌, ◌||◌, ◌+◌, ℕ, [], ◌∷◌, ◌++◌, List, IfOk, OnOk, not, nat_eq, true, None};
ghost use Rattle.std.specs.HashSet.{contains};
ghost use Rattle.log_lines.specs.Limits.{strand_limit};
ghost use Rattle.log_form.specs.Events.{Event, event, has_ended, strand_behind};
ghost use Rattle.log_form.specs.Faults.{claim_fault, turn_fault};
ghost use Rattle.log_pieces.specs.Claims.{ClaimsHold, StrandIsWithin, is_pair, is_that};

use fork_graph::GraphStrand;
use log_form::LogFault;
use log_lines::{Act, LogCause};
use std::alloc::{AllocError, Global};
use std::collections::HashSet;
use std::hash::BuildHasherDefault;
use strand_hasher::StrandHasher;

/// What was said so far.
#[derive(Drop)]
pub(crate) struct Claims {
    /// Strands that have ended, by task and number.
    pub(crate) ended: HashSet<(u32, u32), BuildHasherDefault<StrandHasher>>,
    /// Tasks that were spawned.
    pub(crate) spawned: HashSet<u32, BuildHasherDefault<StrandHasher>>,
    /// Blocks that were born.
    pub(crate) born: HashSet<u64>,
    /// Blocks that were released.
    pub(crate) released: HashSet<u64>,
}

/// A strand's number is below this.
const STRAND_LIMIT: u32 = 1 << 31;

// Why a task has no next strand.
fn turn_fault(strand: GraphStrand) -> Option<LogFault>
    requires { strand.index < strand_limit }
    ensures { result ≡ turn_fault strand }
{
    if strand.index + 1 < STRAND_LIMIT {
        None
    } else {
        Some(LogFault::NoLine(LogCause::OverLimit))
    }
}

impl Claims {
    /// Nothing was said.
    pub(crate) fn new(alloc: Global) -> Claims
        ensures { ClaimsHold result [] }
    {
        Claims {
            ended: HashSet::with_hasher(alloc, BuildHasherDefault::new()),
            spawned: HashSet::with_hasher(alloc, BuildHasherDefault::new()),
            born: HashSet::new(alloc),
            released: HashSet::new(alloc),
        }
    }

    /// Whether a strand has ended.
    pub(crate) fn has_ended(&self, strand: GraphStrand) -> bool
        ensures { (events : List Event) → ClaimsHold self.now events → result ≡ has_ended events strand }
    {
        self.ended.contains(&(strand.task, strand.index))
    }

    // A strand ends.
    fn end(&mut self, strand: GraphStrand) -> Result<(), AllocError>
        ensures ended { OnOk result ((t i : ℕ) → contains is_pair self.new.ended (t, i) ≡ (contains is_pair self.old.ended (t, i) || is_that strand t i)) }
        ensures rest { self.new ≡ record self.old { ended = self.new.ended } }
    {
        self.ended.insert((strand.task, strand.index))?;
        Ok(())
    }

    // A task is spawned, unless it was spawned already.
    fn spawn(&mut self, task: u32) -> Result<bool, AllocError>
        ensures new { IfOk result (λ new. new ≡ not ((task == 0) || contains nat_eq self.old.spawned task)) }
        ensures spawned { IfOk result (λ new. new ≡ true → (c : ℕ) → contains nat_eq self.new.spawned c ≡ (contains nat_eq self.old.spawned c || (task == c))) }
        ensures rest { self.new ≡ record self.old { spawned = self.new.spawned } }
    {
        if task == 0 {
            return Ok(false);
        }
        Ok(self.spawned.insert(task)?)
    }

    // A block is born, unless it was born already.
    fn bear(&mut self, block: u64) -> Result<bool, AllocError>
        ensures new { IfOk result (λ new. new ≡ not (contains nat_eq self.old.born block)) }
        ensures born { IfOk result (λ new. new ≡ true → (b : ℕ) → contains nat_eq self.new.born b ≡ (contains nat_eq self.old.born b || (block == b))) }
        ensures rest { self.new ≡ record self.old { born = self.new.born } }
    {
        Ok(self.born.insert(block)?)
    }

    // A block is released, unless it was released already.
    fn release(&mut self, block: u64) -> Result<bool, AllocError>
        ensures new { IfOk result (λ new. new ≡ not (contains nat_eq self.old.released block)) }
        ensures released { IfOk result (λ new. new ≡ true → (b : ℕ) → contains nat_eq self.new.released b ≡ (contains nat_eq self.old.released b || (block == b))) }
        ensures rest { self.new ≡ record self.old { released = self.new.released } }
    {
        Ok(self.released.insert(block)?)
    }

    // A strand spawns a task.
    fn take_spawn(&mut self, strand: GraphStrand, task: u32) -> Result<Option<LogFault>, AllocError>
        requires { strand.index < strand_limit }
        ensures within { IfOk result (λ fault. fault ≡ None → strand.index + 1 < strand_limit) }
        ensures fault { IfOk result (λ fault. (events : List Event) → ClaimsHold self.old events → fault ≡ claim_fault events strand (Act.Spawn task)) }
        ensures after { IfOk result (λ fault. fault ≡ None → (events : List Event) → ClaimsHold self.old events → ClaimsHold self.new (events ++ event strand (Act.Spawn task) ∷ [])) }
    {
        if !self.spawn(task)? {
            return Ok(Some(LogFault::SpawnedTwice));
        }
        self.end(strand)?;
        Ok(turn_fault(strand))
    }

    // A strand joins a task.
    fn take_join(&mut self, strand: GraphStrand, task: u32) -> Result<Option<LogFault>, AllocError>
        requires { strand.index < strand_limit }
        ensures within { IfOk result (λ fault. fault ≡ None → strand.index + 1 < strand_limit) }
        ensures fault { IfOk result (λ fault. (events : List Event) → ClaimsHold self.old events → fault ≡ claim_fault events strand (Act.Join task)) }
        ensures after { IfOk result (λ fault. fault ≡ None → (events : List Event) → ClaimsHold self.old events → ClaimsHold self.new (events ++ event strand (Act.Join task) ∷ [])) }
    {
        self.end(strand)?;
        Ok(turn_fault(strand))
    }

    // A strand ends its task.
    fn take_finish(&mut self, strand: GraphStrand) -> Result<Option<LogFault>, AllocError>
        ensures fault { IfOk result (λ fault. (events : List Event) → ClaimsHold self.old events → fault ≡ claim_fault events strand Act.Finish) }
        ensures after { IfOk result (λ fault. fault ≡ None → (events : List Event) → ClaimsHold self.old events → ClaimsHold self.new (events ++ event strand Act.Finish ∷ [])) }
    {
        self.end(strand)?;
        Ok(None)
    }

    // On a strand a block is born.
    fn take_birth(
        &mut self,
        strand: GraphStrand,
        block: u64,
        length: u64,
    ) -> Result<Option<LogFault>, AllocError>
        ensures fault { IfOk result (λ fault. (events : List Event) → ClaimsHold self.old events → fault ≡ claim_fault events strand (Act.Birth block length)) }
        ensures after { IfOk result (λ fault. fault ≡ None → (events : List Event) → ClaimsHold self.old events → ClaimsHold self.new (events ++ event strand (Act.Birth block length) ∷ [])) }
    {
        if self.bear(block)? {
            Ok(None)
        } else {
            Ok(Some(LogFault::BornTwice))
        }
    }

    // On a strand a block is released.
    fn take_release(
        &mut self,
        strand: GraphStrand,
        block: u64,
    ) -> Result<Option<LogFault>, AllocError>
        ensures fault { IfOk result (λ fault. (events : List Event) → ClaimsHold self.old events → fault ≡ claim_fault events strand (Act.Release block)) }
        ensures after { IfOk result (λ fault. fault ≡ None → (events : List Event) → ClaimsHold self.old events → ClaimsHold self.new (events ++ event strand (Act.Release block) ∷ [])) }
    {
        if self.release(block)? {
            Ok(None)
        } else {
            Ok(Some(LogFault::ReleasedTwice))
        }
    }

    /// A strand that hasn't ended does something; why it may not.
    pub(crate) fn take(
        &mut self,
        strand: GraphStrand,
        act: Act,
    ) -> Result<Option<LogFault>, AllocError>
        requires { strand.index < strand_limit }
        ensures within { IfOk result (λ fault. fault ≡ None → StrandIsWithin (strand_behind strand act)) }
        ensures fault { IfOk result (λ fault. (events : List Event) → ClaimsHold self.old events → fault ≡ claim_fault events strand act) }
        ensures after { IfOk result (λ fault. fault ≡ None → (events : List Event) → ClaimsHold self.old events → ClaimsHold self.new (events ++ event strand act ∷ [])) }
    {
        match act {
            Act::Spawn(task) => self.take_spawn(strand, task),
            Act::Join(task) => self.take_join(strand, task),
            Act::Finish => self.take_finish(strand),
            Act::Birth { block, length } => self.take_birth(strand, block, length),
            Act::Release(block) => self.take_release(strand, block),
            Act::Access(_) | Act::Yield(_) | Act::Store(_) | Act::Work(_) => Ok(None),
        }
    }
}
