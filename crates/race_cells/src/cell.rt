// The cell of a location.

ghost use Rattle.std.specs.Prelude.{◌≡◌, ◌≢◌, [], ◌∷◌, Some, IfOk, IfSome, option_to_list};
ghost use Rattle.race_cells.specs.declared.access.CellAccessKind.TheVariants.{PlainWrite};
ghost use Rattle.race_cells.specs.CellAccess.{entry_of};
ghost use Rattle.race_cells.specs.AccessStack.{settled};
ghost use Rattle.race_cells.specs.Scan.{keep, no_stacks, with_reads};
ghost use Rattle.race_cells.specs.Cell.{few_stacks, kept_stacks};

use crate::access::{CellAccess, CellAccessKind, CellEntry, CellRace};
use crate::order::Strands;
use crate::stack::{is_low, last_to_leave};
use crate::stacks::{Stacks, race_with_one, race_with_two, stacks_of, stacks_of_two};
use boxed::BoxedSlot;
use std::alloc::{AllocError, Global};
use std::marker::Model;
use std::mem::size_of;

// Most locations take a cell and nothing else.
const _: () = prove!(size_of::<Cell>() == 32);

// What a cell keeps: most locations have a plain write and two plain reads to keep at most.
#[derive(Drop)]
enum KeptAccesses {
    // A race was reported.
    Done,
    Few {
        write: Option<CellEntry>,
        read: Option<CellEntry>,
    },
    // Two plain reads, the lower one of the stack first.
    Two {
        write: Option<CellEntry>,
        below: CellEntry,
        top: CellEntry,
    },
    Many(BoxedSlot<Stacks>),
}

/// What is to be known of the accesses of a location so far to tell whether the next one races. Contracts see the
/// stacks, or `None` once a race was reported.
#[derive(Drop)]
pub struct Cell {
    kept: KeptAccesses,
}

impl Model for Cell {
    ghost use Rattle.std.specs.Prelude.{Option};
    ghost use Rattle.race_cells.specs.declared.stacks.Stacks.{Stacks};
    ghost use Rattle.race_cells.specs.Cell.{kept_stacks};

    ghost Value = { Option Stacks };

    ghost view = { λ c. kept_stacks c.kept };
}

impl Cell {
    ghost use Rattle.std.specs.Prelude.{◌≡◌, List, [], ◌∷◌, ◌++◌, Some, None, IfOk, OnOk, OnErr};
    ghost use Rattle.race_cells.specs.declared.access.CellAccess.{CellAccess};
    ghost use Rattle.race_cells.specs.Order.{ExtendsPrecedence, MeetsAsInTree};
    ghost use Rattle.race_cells.specs.Scan.{after, no_stacks, race_at, scanned};
    ghost use Rattle.race_cells.specs.Laws.{AreStrandsInOrder, IsExactNext};

    /// The cell of a location that wasn't accessed yet.
    pub fn new() -> Cell
        ensures { result ≡ Some no_stacks }
    {
        Cell {
            kept: KeptAccesses::Few {
                write: None,
                read: None,
            },
        }
    }

    /// The next access of the location: the race that it makes with an earlier one, if it is the first that does. A
    /// cell that reported a race is done: it reports none from then on. On an `Err` the cell is as it was.
    pub fn access<S: Strands>(
        &mut self,
        alloc: Global,
        strands: &S,
        access: CellAccess,
    ) -> Result<Option<CellRace>, AllocError>
        ensures race { IfOk result (λ race. race ≡ race_at (S.order strands.now) self.old access) }
        ensures after { OnOk result (self.new ≡ after (S.order strands.now) self.old access) }
        ensures err { OnErr result (self.new ≡ self.old) }

        // In the subject's own words, where the cell has seen these accesses and no others.
        ensures exact { (past : List CellAccess) → self.old ≡ scanned (S.order strands.now) past
            → ExtendsPrecedence (S.order strands.now) → MeetsAsInTree (S.order strands.now)
            → AreStrandsInOrder (S.order strands.now) (past ++ access ∷ [])
            → IfOk result (IsExactNext (S.order strands.now) past access) }
    {
        match self.race(strands, access) {
            Some(race) => {
                self.kept = KeptAccesses::Done;
                Ok(Some(race))
            }
            None => {
                self.keep(alloc, strands, access)?;
                Ok(None)
            }
        }
    }

    // The race that an access makes with what is kept.
    fn race<S: Strands>(&self, strands: &S, access: CellAccess) -> Option<CellRace>
        ensures { result ≡ race_at (S.order strands.now) self.now access }
    {
        match &self.kept {
            KeptAccesses::Done => None,
            KeptAccesses::Few { write, read } => {
                let with_read = race_with_one(strands, access, CellAccessKind::PlainRead, *read);
                let with_write = race_with_one(strands, access, CellAccessKind::PlainWrite, *write);
                with_read.or(with_write)
            }
            KeptAccesses::Two { write, below, top } => {
                let with_reads = race_with_two(strands, access, *below, *top);
                let with_write = race_with_one(strands, access, CellAccessKind::PlainWrite, *write);
                with_reads.or(with_write)
            }
            KeptAccesses::Many(stacks) => stacks.get().race(strands, access),
        }
    }

    // Keeps an access that makes no race.
    fn keep<S: Strands>(
        &mut self,
        alloc: Global,
        strands: &S,
        access: CellAccess,
    ) -> Result<(), AllocError>
        requires { race_at (S.order strands.now) self.old access ≡ None }
        ensures ok { OnOk result (self.new ≡ after (S.order strands.now) self.old access) }
        ensures err { OnErr result (self.new ≡ self.old) }
    {
        match &mut self.kept {
            KeptAccesses::Done => Ok(()),
            KeptAccesses::Few { write, read } => {
                let write = *write;
                let read = *read;
                self.kept = few_and_next(alloc, strands, write, read, access)?;
                Ok(())
            }
            KeptAccesses::Two { write, below, top } => {
                let write = *write;
                let reads = (*below, *top);
                self.kept = two_and_next(alloc, strands, write, reads, access)?;
                Ok(())
            }
            KeptAccesses::Many(stacks) => {
                if access.kind == CellAccessKind::PlainWrite {
                    self.kept = only_written(access);
                    return Ok(());
                }
                stacks.get_mut().keep(strands, access)
            }
        }
    }
}

// A plain write stands for all before it.
fn only_written(access: CellAccess) -> KeptAccesses
    ensures { kept_stacks result ≡ Some (record no_stacks { plain_write = Some (entry_of access) }) }
{
    KeptAccesses::Few {
        write: Some(access.entry()),
        read: None,
    }
}

// What is kept of a plain write, a plain read and the next access.
fn few_and_next<S: Strands>(
    alloc: Global,
    strands: &S,
    write: Option<CellEntry>,
    read: Option<CellEntry>,
    access: CellAccess,
) -> Result<KeptAccesses, AllocError>
    ensures { IfOk result (λ kept. kept_stacks kept
        ≡ Some (keep (S.order strands.now) access (few_stacks write read))) }
{
    match access.kind {
        CellAccessKind::PlainWrite => Ok(only_written(access)),
        CellAccessKind::PlainRead => Ok(few_and_read(strands, write, read, access.entry())),
        _ => many_and_next(alloc, strands, stacks_of(alloc, write, read)?, access),
    }
}

// What is kept of a plain write, a plain read and the next plain read.
fn few_and_read<S: Strands>(
    strands: &S,
    write: Option<CellEntry>,
    read: Option<CellEntry>,
    next: CellEntry,
) -> KeptAccesses
    ensures { kept_stacks result ≡ Some (with_reads write (settled (S.order strands.now) next (option_to_list read))) }
{
    match read {
        Some(earlier) if !strands.happens_before(earlier.strand, next.strand) => {
            KeptAccesses::Two {
                write,
                below: earlier,
                top: next,
            }
        }
        _ => KeptAccesses::Few {
            write,
            read: Some(next),
        },
    }
}

// What is kept of a plain write, two plain reads and the next access.
fn two_and_next<S: Strands>(
    alloc: Global,
    strands: &S,
    write: Option<CellEntry>,
    reads: (CellEntry, CellEntry),
    access: CellAccess,
) -> Result<KeptAccesses, AllocError>
    ensures { IfOk result (λ kept. kept_stacks kept
        ≡ Some (keep (S.order strands.now) access (with_reads write (reads.1 ∷ (reads.0 ∷ []))))) }
{
    match access.kind {
        CellAccessKind::PlainWrite => {
            let kept = only_written(access);
            Ok(kept)
        }
        CellAccessKind::PlainRead => match two_and_read(strands, write, reads, access.entry()) {
            Some(kept) => Ok(kept),
            None => many_and_next(alloc, strands, stacks_of_two(alloc, write, reads)?, access),
        },
        _ => many_and_next(alloc, strands, stacks_of_two(alloc, write, reads)?, access),
    }
}

// What is kept of a plain write, two plain reads and the next plain read, unless it is three plain reads.
fn two_and_read<S: Strands>(
    strands: &S,
    write: Option<CellEntry>,
    reads: (CellEntry, CellEntry),
    next: CellEntry,
) -> Option<KeptAccesses>
    ensures { IfSome result (λ kept. kept_stacks kept
        ≡ Some (with_reads write (settled (S.order strands.now) next (reads.1 ∷ (reads.0 ∷ []))))) }
{
    let (below, top) = reads;
    if strands.happens_before(top.strand, next.strand) {
        return Some(few_and_read(strands, write, Some(below), next));
    }
    if is_low(strands, next.strand, below, top) {
        let below = last_to_leave(strands, below, top);
        return Some(KeptAccesses::Two {
            write,
            below,
            top: next,
        });
    }
    None
}

// The stacks of a cell, with the next access.
fn many_and_next<S: Strands>(
    alloc: Global,
    strands: &S,
    stacks: Stacks,
    access: CellAccess,
) -> Result<KeptAccesses, AllocError>
    requires { access.kind ≢ PlainWrite }
    ensures { IfOk result (λ kept. kept_stacks kept ≡ Some (keep (S.order strands.now) access stacks)) }
{
    let mut stacks = stacks;
    stacks.keep(strands, access)?;
    Ok(KeptAccesses::Many(BoxedSlot::new(alloc, stacks)?))
}
