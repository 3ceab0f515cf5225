// What a cell keeps of the accesses of a location: a stack for each kind.

ghost use Rattle.std.specs.Prelude.{◌≡◌, ◌≢◌, [], ◌∷◌, IfOk, OnOk, OnErr, Some, None, option_to_list};
ghost use Rattle.race_cells.specs.declared.access.CellAccessKind.TheVariants.{PlainRead, PlainWrite};
ghost use Rattle.race_cells.specs.AccessStack.{lowest_unordered};
ghost use Rattle.race_cells.specs.Scan.{keep, race_among, race_in, with_reads};

use crate::access::{CellAccess, CellAccessKind, CellEntry, CellRace};
use crate::order::Strands;
use crate::stack::AccessStack;
use std::alloc::{AllocError, Global};

/// The accesses that stand for all so far, by kinds. A plain write stands for all before it, so of these there is at
/// most one.
#[derive(Drop)]
pub struct Stacks {
    pub plain_reads: AccessStack,
    pub plain_write: Option<CellEntry>,
    pub atomic_reads: AccessStack,
    pub atomic_writes: AccessStack,
}

/// The stacks of a plain write and a plain read.
pub fn stacks_of(
    alloc: Global,
    plain_write: Option<CellEntry>,
    plain_read: Option<CellEntry>,
) -> Result<Stacks, AllocError>
    ensures { IfOk result (λ s. s ≡ with_reads plain_write (option_to_list plain_read)) }
{
    let plain_reads = AccessStack::of_one(alloc, plain_read)?;
    Ok(with_reads(alloc, plain_write, plain_reads))
}

/// The stacks of a plain write and two plain reads, the lower one of their stack first.
pub fn stacks_of_two(
    alloc: Global,
    plain_write: Option<CellEntry>,
    plain_reads: (CellEntry, CellEntry),
) -> Result<Stacks, AllocError>
    ensures { IfOk result (λ s. s ≡ with_reads plain_write (plain_reads.1 ∷ (plain_reads.0 ∷ []))) }
{
    let (below, top) = plain_reads;
    let plain_reads = AccessStack::of_two(alloc, below, top)?;
    Ok(with_reads(alloc, plain_write, plain_reads))
}

// The stacks of a plain write and plain reads.
fn with_reads(alloc: Global, plain_write: Option<CellEntry>, plain_reads: AccessStack) -> Stacks
    ensures { result ≡ with_reads plain_write plain_reads }
{
    Stacks {
        plain_reads,
        plain_write,
        atomic_reads: AccessStack::new(alloc),
        atomic_writes: AccessStack::new(alloc),
    }
}

/// The race of an access with a stack of a kind: with the first from the bottom that doesn't happen before it.
fn race_with_stack<S: Strands>(
    strands: &S,
    access: CellAccess,
    kind: CellAccessKind,
    stack: &AccessStack,
) -> Option<CellRace>
    ensures { result ≡ race_in (S.order strands.now) access kind stack.now }
{
    if !kind.clashes_with(access.kind) {
        return None;
    }
    let entry = stack.lowest_unordered(strands, access.strand)?;
    Some(entry.race_with(kind, access))
}

/// The race of an access with what is at most one of a kind.
pub fn race_with_one<S: Strands>(
    strands: &S,
    access: CellAccess,
    kind: CellAccessKind,
    entry: Option<CellEntry>,
) -> Option<CellRace>
    ensures { result ≡ race_in (S.order strands.now) access kind (option_to_list entry) }
{
    let entry = entry?;
    if kind.clashes_with(access.kind) && !strands.happens_before(entry.strand, access.strand) {
        return Some(entry.race_with(kind, access));
    }
    None
}

/// The race of an access with two plain reads, the lower one of their stack first.
pub fn race_with_two<S: Strands>(
    strands: &S,
    access: CellAccess,
    below: CellEntry,
    top: CellEntry,
) -> Option<CellRace>
    ensures { result ≡ race_in (S.order strands.now) access PlainRead (top ∷ (below ∷ [])) }
{
    if !CellAccessKind::PlainRead.clashes_with(access.kind) {
        return None;
    }
    let entry = lowest_of_two(strands, below, top, access.strand)?;
    Some(entry.race_with(CellAccessKind::PlainRead, access))
}

// The first of two from the bottom that doesn't happen before a strand.
fn lowest_of_two<S: Strands>(
    strands: &S,
    below: CellEntry,
    top: CellEntry,
    strand: u32,
) -> Option<CellEntry>
    ensures { result ≡ lowest_unordered (S.order strands.now) strand (top ∷ (below ∷ [])) }
{
    if !strands.happens_before(below.strand, strand) {
        return Some(below);
    }
    if !strands.happens_before(top.strand, strand) {
        return Some(top);
    }
    None
}

impl Stacks {
    ghost use Rattle.std.specs.Prelude.{◌≡◌, ◌≢◌, OnOk, OnErr};
    ghost use Rattle.std.specs.Option.{option_or};
    ghost use Rattle.race_cells.specs.declared.access.CellAccessKind.TheVariants.{PlainWrite, AtomicRead, AtomicWrite};
    ghost use Rattle.race_cells.specs.Scan.{keep, race_among, race_in};

    /// The race of an access with what is kept, by kinds.
    pub fn race<S: Strands>(&self, strands: &S, access: CellAccess) -> Option<CellRace>
        ensures { result ≡ race_among (S.order strands.now) access self.now }
    {
        let reads = race_with_stack(
            strands,
            access,
            CellAccessKind::PlainRead,
            &self.plain_reads,
        );
        let write = race_with_one(
            strands,
            access,
            CellAccessKind::PlainWrite,
            self.plain_write,
        );
        reads.or(write).or(self.atomic_race(strands, access))
    }

    // Its race with what is kept of the atomic accesses.
    fn atomic_race<S: Strands>(&self, strands: &S, access: CellAccess) -> Option<CellRace>
        ensures { result ≡ option_or (race_in (S.order strands.now) access AtomicRead self.now.atomic_reads)
            (race_in (S.order strands.now) access AtomicWrite self.now.atomic_writes) }
    {
        let reads = race_with_stack(
            strands,
            access,
            CellAccessKind::AtomicRead,
            &self.atomic_reads,
        );
        let writes = race_with_stack(
            strands,
            access,
            CellAccessKind::AtomicWrite,
            &self.atomic_writes,
        );
        reads.or(writes)
    }

    /// Keeps an access that is no plain write. On an `Err` nothing has changed.
    pub fn keep<S: Strands>(&mut self, strands: &S, access: CellAccess) -> Result<(), AllocError>
        requires { access.kind ≢ PlainWrite }
        ensures ok { OnOk result (self.new ≡ keep (S.order strands.now) access self.old) }
        ensures err { OnErr result (self.new ≡ self.old) }
    {
        let entry = access.entry();
        match access.kind {
            CellAccessKind::PlainRead => self.plain_reads.settle(strands, entry),
            CellAccessKind::AtomicRead => self.atomic_reads.settle(strands, entry),
            CellAccessKind::AtomicWrite => self.atomic_writes.settle(strands, entry),
            CellAccessKind::PlainWrite => unreachable!(),
        }
    }
}
