//! The calls of a value that makes each entry that the ledger allows.

ghost use Rattle.std.specs.Prelude.{◌≡◌, ◌<◌, ◌≤◌, [], ℕ, IfOk, OnOk, None, Some, false, true};
ghost use Rattle.entry_calls.specs.below.run_trace.{mark_limit};
ghost use Rattle.entry_calls.specs.below.core_invariant.{FitsFirst, IsSharedValue, WorkerPartFits, first_cause, refused, rest_at};
ghost use Rattle.entry_calls.specs.below.leaf_collections.{FitsCopied};
ghost use Rattle.entry_calls.specs.below.step_commit.{IsShared, alone_entry};
ghost use Rattle.entry_calls.specs.Calls.{BeginsLeaf, BeginsMarking, EndsForFuel, EndsLeaf, EntersLeaving, EntersLent, EntersSteps, GetsChunk, MarksMore, PutsOff, SweepsHeap, TakesTask};
ghost use Rattle.entry_calls.specs.Ran.{LeavesBy};
ghost use Rattle.entry_calls.specs.below.task_slots.{ParkedTask as RestOf};
ghost use Rattle.entry_calls.specs.below.task_machine.{Private as PrivateOf};

use entry_calls::{
    Addr, BlockSource, Leaving, Lent, Moved, NotEnded, NotEntered, NotLeft, PartBlock, PartInBlock,
    Private, Program, Ran, Refused, Settings, ToChunks,
};
use std::alloc::{AllocError, Global};

/// Keeps the value that workers share, and makes each entry that the ledger allows, whatever a worker owes by the pace.
/// Each committing call makes one entry of the journal.
pub trait LegalCalls {
    ghost use Rattle.entry_calls.specs.below.core_invariant.{SharedValue};

    ghost value: { Self → SharedValue };

    /// Before the first entry.
    fn new(alloc: Global, program: &Program, settings: Settings) -> Result<Self, AllocError>
        ensures program { IfOk result (λ s. (value s).program ≡ program.now) }
        ensures settings { IfOk result (λ s. (value s).settings ≡ settings) }
        ensures journal { IfOk result (λ s. (value s).journal.items ≡ []) }
        ensures on { IfOk result (λ s. (value s).halted ≡ false) }
        ensures root { IfOk result (λ s. (r : RestOf) → rest_at (value s).rests 0 ≡ Some r → r.heap.chunks ≡ []) };

    /// Reserves capacity for one entry.
    fn reserve(&mut self) -> Result<(), AllocError>
        ensures same { value self.new ≡ record (value self.old) { journal = record { items = (value self.old).journal.items; room = (value self.new).journal.room } } }
        ensures room { OnOk result (0 < (value self.new).journal.room) }
        ensures fit { (k : ℕ) (p : PrivateOf) → WorkerPartFits (value self.old) k p → WorkerPartFits (value self.new) k p };

    /// The worker takes a ready task, and gets its part in this block.
    fn took(&mut self, worker: u32, t: u32, block: PartBlock) -> Result<PartInBlock, Refused>
        requires room { 0 < (value self.old).journal.room }
        ensures { TakesTask (value self.old) (value self.new) worker t result };

    /// Commits the fresh steps of a part, all private.
    fn ran_private(&mut self, worker: u32, part: &mut Private) -> Result<(), Refused>
        requires room { 0 < (value self.old).journal.room }
        requires fits { WorkerPartFits (value self.old) worker part.old }
        requires fresh { 0 < part.old.fresh }
        ensures { EntersSteps (value self.old) (value self.new) worker part.old part.new result };

    /// Commits the fresh steps of a part and its next one, which isn't private, unless that one gives the part up. If
    /// it does, or an allocation fails, nothing is committed, though heaps and sets may have spare capacity.
    fn ran_lent(&mut self, worker: u32, part: &mut Private) -> Result<Lent, NotEntered>
        requires room { 0 < (value self.old).journal.room }
        requires fits { WorkerPartFits (value self.old) worker part.old }
        requires shared { IsShared (value self.old) part.old }
        ensures { EntersLent (value self.old) (value self.new) worker part.old part.new result };

    /// Commits the fresh steps of a part together with its next one, which gives the part up in this way; its block is
    /// kept. If an allocation fails nothing is committed, though heaps and sets may have spare capacity.
    fn ran_leaving(
        &mut self,
        blocks: &mut BlockSource,
        worker: u32,
        part: PartInBlock,
        leaving: Leaving,
    ) -> Result<Ran, NotLeft>
        requires room { 0 < (value self.old).journal.room }
        requires fits { WorkerPartFits (value self.old) worker part }
        requires shared { IsShared (value self.old) part }
        requires free { refused (value self.old) (alone_entry worker part) ≡ None }
        requires leaves { LeavesBy (value self.old) part leaving }
        ensures { EntersLeaving (value self.old) (value self.new) worker part result };

    /// The run ends because its fuel is used up.
    fn fuel(&mut self, worker: u32) -> Result<(), Refused>
        requires room { 0 < (value self.old).journal.room }
        ensures { EndsForFuel (value self.old) (value self.new) worker result };

    /// A part gets the chunk that its next step needs. If too few units are free the run ends.
    fn chunk(&mut self, worker: u32, part: &mut Private) -> Result<(), NotEntered>
        requires room { 0 < (value self.old).journal.room }
        requires fits { WorkerPartFits (value self.old) worker part.old }
        requires fresh { part.old.fresh ≡ 0 }
        ensures { GetsChunk (value self.old) (value self.new) worker part.old part.new result };

    /// A due leaf collection of a part begins: returns its roots, and new chunks with all that copying needs.
    fn leaf_begin(
        &mut self,
        worker: u32,
        part: &mut Private,
    ) -> Result<(Vec<Addr>, ToChunks), NotEntered>
        requires room { 0 < (value self.old).journal.room }
        requires fits { WorkerPartFits (value self.old) worker part.old }
        requires fresh { part.old.fresh ≡ 0 }
        ensures { BeginsLeaf (value self.old) (value self.new) worker part.old part.new result };

    /// The leaf collection of a part ends, after its heap was copied: fields that still hold old addresses are updated,
    /// and the chunks that aren't needed are released. It doesn't allocate.
    fn leaf_end(&mut self, worker: u32, part: &mut Private, moved: Moved) -> Result<(), NotEnded>
        requires room { 0 < (value self.old).journal.room }
        requires fits { FitsCopied (value self.old) worker part.old moved }
        ensures { EndsLeaf (value self.old) (value self.new) worker part.old part.new moved result };

    /// A due leaf collection of a part is put off, since too few chunks are free for it: its words are counted from 0
    /// on.
    fn put_off(&mut self, worker: u32, part: &mut Private) -> Result<(), Refused>
        requires room { 0 < (value self.old).journal.room }
        requires fits { WorkerPartFits (value self.old) worker part.old }
        requires fresh { part.old.fresh ≡ 0 }
        ensures { PutsOff (value self.old) (value self.new) worker part.old part.new result };

    /// The marking of the heap of a waiting task begins: from what the task's registers hold, and from the fields of
    /// ancestors' heaps that point down into it.
    fn mark(&mut self, worker: u32, t: u32) -> Result<(), NotEntered>
        requires room { 0 < (value self.old).journal.room }
        ensures { BeginsMarking (value self.old) (value self.new) worker t result };

    /// Marks up to `n` more objects of a heap, and returns how many. It doesn't allocate.
    fn mark_objects(&mut self, worker: u32, t: u32, n: u32) -> Result<u32, Refused>
        requires room { 0 < (value self.old).journal.room }
        requires some { 0 < n }
        requires few { n ≤ mark_limit }
        ensures { MarksMore (value self.old) (value self.new) worker t n result };

    /// The heap of a waiting task is swept: of its objects exactly those that were reachable at the task's fork stay,
    /// each at its address, and chunks without an object are released. From then on its overwritten references aren't
    /// kept. It doesn't allocate.
    fn sweep(&mut self, worker: u32, t: u32, given: u32) -> Result<(), Refused>
        requires room { 0 < (value self.old).journal.room }
        ensures { SweepsHeap (value self.old) (value self.new) worker t given result };

    /// The program that is run.
    fn program(&self) -> &Program
        ensures { result.now ≡ (value self.now).program };

    /// Why a worker may make no entry except the end without fuel: the run has ended, its fuel is used up, or there is
    /// no such worker.
    fn refused_first(&self, worker: u32) -> Option<Refused>
        ensures { result ≡ first_cause (value self.now).end (value self.now).steps (value self.now).settings worker false };

    /// Before the run's end a part that fits may take private steps: it fits the machine after its fresh steps, with
    /// the addresses of its ancestors' heaps.
    fn may_run(&self, worker: u32, part: &Private)
        requires fits { WorkerPartFits (value self.now) worker part.now }
        requires goes { (value self.now).end ≡ None }
        ensures { FitsFirst (value self.now) part.now };

    /// It stands for its journal, which is legal.
    fn stands(&self)
        ensures { IsSharedValue (value self.now) };
}
