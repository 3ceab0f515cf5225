//! The calls of a value that workers share.

ghost use Rattle.std.specs.Prelude.{◌≡◌, ◌<◌, ◌≤◌, ◌^◌, [], ℕ, IfOk, OnOk, None, Some, false, true, is_some, length};
ghost use Rattle.leaf_collections.specs.below.run_trace.{mark_limit};
ghost use Rattle.leaf_collections.specs.below.run_ledger.{heap_of, is_paced, is_pool_enough, left_in, sweep_number};
ghost use Rattle.leaf_collections.specs.below.task_machine.{Private as PrivateOf};
ghost use Rattle.leaf_collections.specs.below.task_slots.{ParkedTask as RestOf};
ghost use Rattle.leaf_collections.specs.below.core_invariant.{first_cause, IsOutPart, refused, EachPartStillFits, WorkerPartFits, accounts, rest_at, IsSharedValue};
ghost use Rattle.fork_join_commit.specs.below.step_commit.{alone_entry, IsShared};
ghost use Rattle.leaf_collections.specs.LeafEnd.{end_entry, FitsCopied};
ghost use Rattle.heap_marking.specs.MarkCauses.{marking_cause};
ghost use Rattle.entry_calls.specs.Calls.{BeginsLeaf, BeginsMarking, EndsForFuel, EndsLeaf, EntersLeaving, EntersLent, EntersSteps, GetsChunk, MarksMore, PutsOff, SweepsHeap, TakesTask};
ghost use Rattle.entry_calls.specs.Owed.{Pays, owed_by};
ghost use Rattle.entry_calls.specs.Ran.{LeavesBy};

use crate::answers::{Leaving, Lent, NotEnded, NotLeft, Ran};
use crate::part_block::{BlockSource, PartBlock, PartInBlock};
use leaf_collections::{
    Addr, Kind, Moved, NotEntered, Owed, Private, Program, Refused, RunEnd, Settings, ToChunks,
};
use std::alloc::{AllocError, Global};

/// Keeps the value that workers share, so that each entry gives what its worker owes to the collections of the heaps of
/// waiting tasks, or ends the run because the fuel is used up. Each committing call makes one entry of the journal.
pub trait EntryCalls {
    ghost use Rattle.leaf_collections.specs.below.core_invariant.{SharedValue};

    ghost value: { Self → SharedValue };

    /// Before the first entry.
    fn new(alloc: Global, program: &Program, settings: Settings) -> Result<Self, AllocError>
        ensures program { IfOk result (λ s. (value s).program ≡ program.now) }
        ensures settings { IfOk result (λ s. (value s).settings ≡ settings) }
        ensures journal { IfOk result (λ s. (value s).journal.items ≡ []) }
        ensures on { IfOk result (λ s. (value s).halted ≡ false) }
        ensures root { IfOk result (λ s. (r : RestOf) → rest_at (value s).rests 0 ≡ Some r → r.heap.chunks ≡ []) };

    /// Reserves capacity for one entry.
    fn reserve(&mut self) -> Result<(), AllocError>
        ensures same { value self.new ≡ record (value self.old) { journal = record { items = (value self.old).journal.items; room = (value self.new).journal.room } } }
        ensures room { OnOk result (0 < (value self.new).journal.room) }
        ensures fit { (k : ℕ) (p : PrivateOf) → WorkerPartFits (value self.old) k p → WorkerPartFits (value self.new) k p };

    /// Makes no more entries: an allocation of some worker has failed. No other call depends on it, and none
    /// changes it.
    fn halt(&mut self)
        ensures same { value self.new ≡ record (value self.old) { halted = true } }
        ensures fits { EachPartStillFits (value self.old) (value self.new) };

    /// The worker takes a ready task, and gets its part in this block.
    fn took(&mut self, worker: u32, t: u32, block: PartBlock) -> Result<PartInBlock, Refused>
        requires room { 0 < (value self.old).journal.room }
        requires pays { Pays (value self.old) (record { worker = worker; kind = Kind.Took t }) }
        ensures { TakesTask (value self.old) (value self.new) worker t result };

    /// Commits the fresh steps of a part, all private.
    fn ran_private(&mut self, worker: u32, part: &mut Private) -> Result<(), Refused>
        requires room { 0 < (value self.old).journal.room }
        requires fits { WorkerPartFits (value self.old) worker part.old }
        requires fresh { 0 < part.old.fresh }
        requires pays { Pays (value self.old) (record { worker = worker; kind = Kind.Ran part.old.task part.old.fresh }) }
        ensures { EntersSteps (value self.old) (value self.new) worker part.old part.new result };

    /// Commits the fresh steps of a part and its next one, which isn't private, unless that one gives the part up. If
    /// it does, or an allocation fails, nothing is committed, though heaps and sets may have spare capacity.
    fn ran_lent(&mut self, worker: u32, part: &mut Private) -> Result<Lent, NotEntered>
        requires room { 0 < (value self.old).journal.room }
        requires fits { WorkerPartFits (value self.old) worker part.old }
        requires shared { IsShared (value self.old) part.old }
        requires pays { Pays (value self.old) (alone_entry worker part.old) }
        ensures { EntersLent (value self.old) (value self.new) worker part.old part.new result };

    /// Commits the fresh steps of a part together with its next one, which gives the part up in this way; its block is
    /// kept. If an allocation fails nothing is committed, though heaps and sets may have spare capacity.
    fn ran_leaving(
        &mut self,
        blocks: &mut BlockSource,
        worker: u32,
        part: PartInBlock,
        leaving: Leaving,
    ) -> Result<Ran, NotLeft>
        requires room { 0 < (value self.old).journal.room }
        requires fits { WorkerPartFits (value self.old) worker part }
        requires shared { IsShared (value self.old) part }
        requires free { refused (value self.old) (alone_entry worker part) ≡ None }
        requires leaves { LeavesBy (value self.old) part leaving }
        requires pays { Pays (value self.old) (alone_entry worker part) }
        ensures { EntersLeaving (value self.old) (value self.new) worker part result };

    /// The run ends because its fuel is used up.
    fn fuel(&mut self, worker: u32) -> Result<(), Refused>
        requires room { 0 < (value self.old).journal.room }
        ensures { EndsForFuel (value self.old) (value self.new) worker result };

    /// A part gets the chunk that its next step needs. If too few units are free the run ends.
    fn chunk(&mut self, worker: u32, part: &mut Private) -> Result<(), NotEntered>
        requires room { 0 < (value self.old).journal.room }
        requires fits { WorkerPartFits (value self.old) worker part.old }
        requires fresh { part.old.fresh ≡ 0 }
        requires pays { Pays (value self.old) (record { worker = worker; kind = Kind.Chunk part.old.task }) }
        ensures { GetsChunk (value self.old) (value self.new) worker part.old part.new result };

    /// A due leaf collection of a part begins: returns its roots, and new chunks with all that copying needs.
    fn leaf_begin(
        &mut self,
        worker: u32,
        part: &mut Private,
    ) -> Result<(Vec<Addr>, ToChunks), NotEntered>
        requires room { 0 < (value self.old).journal.room }
        requires fits { WorkerPartFits (value self.old) worker part.old }
        requires fresh { part.old.fresh ≡ 0 }
        requires pays { Pays (value self.old) (record { worker = worker; kind = Kind.Begin part.old.task }) }
        ensures { BeginsLeaf (value self.old) (value self.new) worker part.old part.new result };

    /// The leaf collection of a part ends, after its heap was copied: fields that still hold old addresses are updated,
    /// and the chunks that aren't needed are released. It doesn't allocate.
    fn leaf_end(&mut self, worker: u32, part: &mut Private, moved: Moved) -> Result<(), NotEnded>
        requires room { 0 < (value self.old).journal.room }
        requires fits { FitsCopied (value self.old) worker part.old moved }
        requires pays { Pays (value self.old) (end_entry worker part.old moved) }
        ensures { EndsLeaf (value self.old) (value self.new) worker part.old part.new moved result };

    /// A due leaf collection of a part is put off, since too few chunks are free for it: its words are counted from 0
    /// on.
    fn put_off(&mut self, worker: u32, part: &mut Private) -> Result<(), Refused>
        requires room { 0 < (value self.old).journal.room }
        requires fits { WorkerPartFits (value self.old) worker part.old }
        requires fresh { part.old.fresh ≡ 0 }
        requires pays { Pays (value self.old) (record { worker = worker; kind = Kind.PutOff part.old.task }) }
        ensures { PutsOff (value self.old) (value self.new) worker part.old part.new result };

    /// The marking of the heap of a waiting task begins.
    fn mark(&mut self, worker: u32, t: u32) -> Result<(), NotEntered>
        requires room { 0 < (value self.old).journal.room }
        requires pays { Pays (value self.old) (record { worker = worker; kind = Kind.Mark t }) }
        ensures { BeginsMarking (value self.old) (value self.new) worker t result };

    /// Marks up to `n` more objects, and returns how many. It doesn't allocate.
    fn mark_objects(&mut self, worker: u32, t: u32, n: u32) -> Result<u32, Refused>
        requires room { 0 < (value self.old).journal.room }
        requires some { 0 < n }
        requires few { n ≤ mark_limit }
        requires pays { Pays (value self.old) (record { worker = worker; kind = Kind.More t n }) }
        ensures { MarksMore (value self.old) (value self.new) worker t n result };

    /// The heap of a waiting task is swept: what wasn't marked is dropped. It doesn't allocate.
    fn sweep(&mut self, worker: u32, t: u32, given: u32) -> Result<(), Refused>
        requires room { 0 < (value self.old).journal.room }
        requires pays { Pays (value self.old) (record { worker = worker; kind = Kind.Sweep t given }) }
        ensures { SweepsHeap (value self.old) (value self.new) worker t given result };

    /// What the worker's next entry has to be.
    fn owed(&self, worker: u32) -> Owed
        requires worker { worker < (value self.now).settings.workers }
        requires goes { (accounts (value self.now)).end ≡ None }
        ensures { result ≡ owed_by (value self.now) worker };

    /// Why a worker may make no entry except the end without fuel: the run has ended, its fuel is used up, or there is
    /// no such worker.
    fn refused_first(&self, worker: u32) -> Option<Refused>
        ensures { result ≡ first_cause (value self.now).end (value self.now).steps (value self.now).settings worker false };

    /// Whether enough chunks are free for a leaf collection of a part.
    fn pool_enough(&self, part: &Private) -> bool
        requires out { IsOutPart (value self.now) part.now }
        requires fresh { part.now.fresh ≡ 0 }
        ensures { result ≡ is_pool_enough (value self.now).settings (accounts (value self.now)) part.now.task };

    /// How many units of 1,024 words a sweep of a marked heap releases.
    fn would_give(&self, t: u32) -> u32
        requires goes { (accounts (value self.now)).end ≡ None }
        requires marked { marking_cause (value self.now) t ≡ None }
        requires none_left { left_in (heap_of (accounts (value self.now)) t) ≡ 0 }
        ensures { result ≡ sweep_number (accounts (value self.now)).machine (heap_of (accounts (value self.now)) t) };

    /// How the run has ended, if it has.
    fn ended(&self) -> Option<RunEnd>
        ensures { result ≡ (accounts (value self.now)).end };

    /// Whether the run has ended.
    fn has_ended(&self) -> bool
        ensures { result ≡ is_some (accounts (value self.now)).end };

    /// Whether an allocation of some worker has failed.
    fn halted(&self) -> bool
        ensures { result ≡ (value self.now).halted };

    /// How many entries were made. The journal is a list in memory, so their number fits.
    fn entries(&self) -> u64
        ensures value { result ≡ length (value self.now).journal.items }
        ensures short { length (value self.now).journal.items < 2 ^ 63 };

    /// It stands for its journal, which is legal and paced.
    fn stands(&self)
        ensures stands { IsSharedValue (value self.now) }
        ensures paced { is_paced (value self.now).program (value self.now).settings (value self.now).journal.items ≡ true };
}
