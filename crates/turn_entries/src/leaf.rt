//! The entries of leaf collections.
ghost use Rattle.std.specs.Prelude.{◌≡◌, true, false};
ghost use Rattle.entry_calls.specs.below.run_trace.{Kind as KindOf};
ghost use Rattle.entry_calls.specs.below.run_ledger.{Owed as OwedOf, is_pool_enough};
ghost use Rattle.entry_calls.specs.below.core_invariant.{accounts};
ghost use Rattle.entry_calls.specs.below.leaf_collections.{FitsCopied};
ghost use Rattle.turn_entries.specs.Acts.{ActsAnyhow};
ghost use Rattle.turn_entries.specs.Next.{due_kind};
ghost use Rattle.turn_entries.specs.Parts.{IsPaused};
ghost use Rattle.turn_entries.specs.Values.{MayEnter};

use crate::act::TurnOutcome;
use crate::between_turns::{Collecting, CollectionLists, Copied, Next};
use crate::run::Run;
use entry_calls::{Addr, BlockSource, BoxedSlot, EntryCalls, Moved, PartInBlock, Paused, ToChunks};
use std::alloc::{AllocError, Global};

// No lists.
fn no_lists(alloc: Global) -> Moved {
    Moved {
        moved: Vec::new(alloc),
        taken: 0,
        given: 0,
        left: 0,
        back: Vec::new(alloc),
    }
}

// No new chunks, and no lists for copying.
fn no_chunks(alloc: Global) -> ToChunks {
    ToChunks {
        chunks: Vec::new(alloc),
        lists: no_lists(alloc),
        found: Vec::new(alloc),
        laid: Vec::new(alloc),
    }
}

// A block for what a collection takes along, without any of it yet, and one for its result.
fn lists_block(alloc: Global) -> Result<BoxedSlot<CollectionLists>, AllocError> {
    let block = BoxedSlot::new(alloc, no_lists(alloc))?;
    let none = CollectionLists {
        roots: Vec::new(alloc),
        to_chunks: no_chunks(alloc),
        block,
    };
    Ok(BoxedSlot::new(alloc, none)?)
}

// What a collection takes along, in this block.
fn filled(
    lists: BoxedSlot<CollectionLists>,
    part: PartInBlock,
    roots: Vec<Addr>,
    to_chunks: ToChunks,
) -> Collecting
    ensures { result ≡ record { part = part; lists = record { roots = roots; to_chunks = to_chunks; block = result.lists.block } } }
{
    let mut lists = lists;
    let inside = lists.get_mut();
    inside.roots = roots;
    inside.to_chunks = to_chunks;
    Collecting { part, lists }
}

impl<P: EntryCalls + Drop> Run<P> {
    // The collection of the part begins. There is a block for what it takes along.
    fn begin_in(
        &mut self,
        worker: u32,
        part: PartInBlock,
        lists: BoxedSlot<CollectionLists>,
    ) -> TurnOutcome
        requires enter { MayEnter (P.value self.old.paced) worker OwedOf.Nothing }
        requires paused { IsPaused (P.value self.old.paced) worker part Paused.Due }
        requires enough { is_pool_enough (P.value self.old.paced).settings (accounts (P.value self.old.paced)) part.task ≡ true }
        requires fresh { part.fresh ≡ 0 }
        ensures { ActsAnyhow (P.value self.old.paced) (P.value self.new.paced) worker (KindOf.Begin part.task) result }
    {
        self.paced.stands();
        let mut part = part;
        match self.paced.leaf_begin(worker, part.get_mut()) {
            Ok((roots, to_chunks)) => {
                self.entered(Next::Collecting(filled(lists, part, roots, to_chunks)))
            }
            Err(cause) => self.out_of_memory(cause),
        }
    }

    // The collection of the part begins, given memory for what it takes along.
    fn begin_leaf(
        &mut self,
        blocks: &mut BlockSource,
        worker: u32,
        part: PartInBlock,
    ) -> TurnOutcome
        requires enter { MayEnter (P.value self.old.paced) worker OwedOf.Nothing }
        requires paused { IsPaused (P.value self.old.paced) worker part Paused.Due }
        requires enough { is_pool_enough (P.value self.old.paced).settings (accounts (P.value self.old.paced)) part.task ≡ true }
        requires fresh { part.fresh ≡ 0 }
        ensures { ActsAnyhow (P.value self.old.paced) (P.value self.new.paced) worker (KindOf.Begin part.task) result }
    {
        match lists_block(blocks.alloc()) {
            Ok(lists) => self.begin_in(worker, part, lists),
            Err(_) => self.halted(),
        }
    }

    // The collection of the part is put off.
    fn put_off_leaf(&mut self, worker: u32, part: PartInBlock) -> TurnOutcome
        requires enter { MayEnter (P.value self.old.paced) worker OwedOf.Nothing }
        requires paused { IsPaused (P.value self.old.paced) worker part Paused.Due }
        requires short { is_pool_enough (P.value self.old.paced).settings (accounts (P.value self.old.paced)) part.task ≡ false }
        requires fresh { part.fresh ≡ 0 }
        ensures { ActsAnyhow (P.value self.old.paced) (P.value self.new.paced) worker (KindOf.PutOff part.task) result }
    {
        self.paced.stands();
        let mut part = part;
        match self.paced.put_off(worker, part.get_mut()) {
            Ok(()) => self.entered(Next::Running(part)),
            Err(_) => unreachable!(),
        }
    }

    /// The due collection of the part begins, or is put off if too few chunks are free.
    pub(crate) fn collect(
        &mut self,
        blocks: &mut BlockSource,
        worker: u32,
        part: PartInBlock,
    ) -> TurnOutcome
        requires enter { MayEnter (P.value self.old.paced) worker OwedOf.Nothing }
        requires paused { IsPaused (P.value self.old.paced) worker part Paused.Due }
        requires fresh { part.fresh ≡ 0 }
        ensures { ActsAnyhow (P.value self.old.paced) (P.value self.new.paced) worker (due_kind (P.value self.old.paced) part.task) result }
    {
        if self.paced.pool_enough(part.get()) {
            self.begin_leaf(blocks, worker, part)
        } else {
            self.put_off_leaf(worker, part)
        }
    }

    /// The collection of the part ends, whose heap was copied.
    pub(crate) fn end_leaf(&mut self, worker: u32, copied: Copied) -> TurnOutcome
        requires enter { MayEnter (P.value self.old.paced) worker OwedOf.Nothing }
        requires fits { FitsCopied (P.value self.old.paced) worker copied.part copied.moved }
        ensures { ActsAnyhow (P.value self.old.paced) (P.value self.new.paced) worker (KindOf.End copied.part.task copied.moved.taken copied.moved.given copied.moved.left) result }
    {
        self.paced.stands();
        let Copied {
            mut part,
            moved,
            ..
        } = copied;
        match self
            .paced
            .leaf_end(worker, part.get_mut(), moved.into_inner())
        {
            Ok(()) => self.entered(Next::Running(part)),
            Err(_) => unreachable!(),
        }
    }
}
