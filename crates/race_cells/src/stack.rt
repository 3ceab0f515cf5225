// A stack of accesses of one kind.

ghost use Rattle.std.specs.Prelude.{◌≡◌, ◌≤◌, reverse, IfSome, vec_len, vec_capacity};
ghost use Rattle.race_cells.specs.AccessStack.{is_low, last_to_leave, lowered_stack, topmost_pair, without_earlier};

use crate::access::CellEntry;
use crate::order::Strands;
use std::alloc::{AllocError, Global};
use std::marker::Model;

/// A stack of accesses of one kind, which contracts see from its top.
#[derive(Drop)]
pub struct AccessStack {
    entries: Vec<CellEntry>,
}

impl Model for AccessStack {
    ghost use Rattle.std.specs.Prelude.{List, reverse};
    ghost use Rattle.race_cells.specs.declared.access.CellEntry.{CellEntry};

    ghost Value = { List CellEntry };

    ghost view = { λ s. reverse s.entries.items };
}

impl AccessStack {
    ghost use Rattle.std.specs.Prelude.{◌≡◌, [], ◌∷◌, OnOk, OnErr, IfOk, option_to_list};
    ghost use Rattle.race_cells.specs.AccessStack.{lowest_unordered, settled};

    /// An empty stack, which takes no memory yet.
    pub fn new(alloc: Global) -> AccessStack
        ensures { result ≡ [] }
    {
        AccessStack {
            entries: Vec::new(alloc),
        }
    }

    // Pushes an access, whatever it is.
    fn push(&mut self, entry: CellEntry) -> Result<(), AllocError>
        ensures { OnOk result (self.new ≡ entry ∷ self.old) }
    {
        self.entries.push(entry)?;
        Ok(())
    }

    /// A stack of at most one access.
    pub(crate) fn of_one(alloc: Global, entry: Option<CellEntry>) -> Result<AccessStack, AllocError>
        ensures { IfOk result (λ s. s ≡ option_to_list entry) }
    {
        let mut stack = AccessStack::new(alloc);
        if let Some(entry) = entry {
            stack.push(entry)?;
        }
        Ok(stack)
    }

    /// A stack of two accesses.
    pub(crate) fn of_two(
        alloc: Global,
        below: CellEntry,
        top: CellEntry,
    ) -> Result<AccessStack, AllocError>
        ensures { IfOk result (λ s. s ≡ top ∷ (below ∷ [])) }
    {
        let mut stack = AccessStack::new(alloc);
        stack.push(below)?;
        stack.push(top)?;
        Ok(stack)
    }

    /// The first from the bottom that doesn't happen before a strand.
    pub fn lowest_unordered<S: Strands>(&self, strands: &S, strand: u32) -> Option<CellEntry>
        ensures { result ≡ lowest_unordered (S.order strands.now) strand self.now }
    {
        for entry in &self.entries {
            if !strands.happens_before(entry.strand, strand) {
                return Some(*entry);
            }
        }
        None
    }

    /// Pushes an access, after those have left that nobody has to know from then on. On an `Err` nothing has changed.
    pub fn settle<S: Strands>(&mut self, strands: &S, entry: CellEntry) -> Result<(), AllocError>
        ensures ok { OnOk result (self.new ≡ settled (S.order strands.now) entry self.old) }
        ensures err { OnErr result (self.new ≡ self.old) }
    {
        self.entries.reserve(1)?;
        drop_earlier(&mut self.entries, strands, entry.strand);
        lower(&mut self.entries, strands, entry.strand);
        self.entries.push_reserved(entry);
        Ok(())
    }
}

// Drops from the top what happens before a strand.
fn drop_earlier<S: Strands>(entries: &mut Vec<CellEntry>, strands: &S, strand: u32)
    ensures left { reverse entries.new.items ≡ without_earlier (S.order strands.now) strand (reverse entries.old.items) }
    ensures capacity { vec_capacity entries.new ≡ vec_capacity entries.old }
    ensures fewer { vec_len entries.new ≤ vec_len entries.old }
{
    while let Some(top) = entries.last() {
        if !strands.happens_before(top.strand, strand) {
            return;
        }
        entries.pop();
    }
}

// Drops one of the two topmost while these meet no higher than the upper one meets a strand.
fn lower<S: Strands>(entries: &mut Vec<CellEntry>, strands: &S, strand: u32)
    ensures left { reverse entries.new.items ≡ lowered_stack (S.order strands.now) strand (reverse entries.old.items) }
    ensures capacity { vec_capacity entries.new ≡ vec_capacity entries.old }
    ensures fewer { vec_len entries.new ≤ vec_len entries.old }
{
    while let Some((below, top)) = two_topmost(entries) {
        if !is_low(strands, strand, below, top) {
            return;
        }
        entries.pop();
        entries.pop();
        entries.push_reserved(last_to_leave(strands, below, top));
    }
}

// The two topmost, the lower one first.
fn two_topmost(entries: &Vec<CellEntry>) -> Option<(CellEntry, CellEntry)>
    ensures pair { topmost_pair (reverse entries.now.items) ≡ result }
    ensures two { IfSome result (λ _. 2 ≤ vec_len entries.now) }
{
    match entries.as_slice() {
        [.., below, top] => Some((*below, *top)),
        _ => None,
    }
}

/// Whether two meet no higher than the upper one meets a strand.
pub(crate) fn is_low<S: Strands>(strands: &S, strand: u32, below: CellEntry, top: CellEntry) -> bool
    ensures { result ≡ is_low (S.order strands.now) strand below top }
{
    let upper = strands.meeting(top.strand, strand);
    upper == 0 || upper <= strands.meeting(below.strand, top.strand)
}

/// Of two the one that leaves their meeting later.
pub(crate) fn last_to_leave<S: Strands>(strands: &S, below: CellEntry, top: CellEntry) -> CellEntry
    ensures { result ≡ last_to_leave (S.order strands.now) below top }
{
    if strands.leaves_first(below.strand, top.strand) {
        top
    } else {
        below
    }
}
