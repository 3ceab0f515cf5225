// Sets of names, looked up in tables.

ghost use Rattle.std.specs.Prelude.{◌≡◌, ◌++◌, ◌||◌, IfOk, OnOk, filter};
ghost use Rattle.std.specs.HashSet.{contains};
ghost use Rattle.hh_model.specs.declared.data.Name.{Name};
ghost use Rattle.run_ledger.specs.Heaps.{held_in, small_in};
ghost use Rattle.run_ledger.specs.Reachable.{holds_name, is_name};

use hh_model::Name;
use plain_vec::Listed;
use run_ledger::Heap;
use std::alloc::{AllocError, Global};
use std::collections::HashSet;

/// A table of some names.
pub(crate) fn table_of(alloc: Global, names: &[Name]) -> Result<HashSet<Name>, AllocError>
    ensures { IfOk result (λ table. (n : Name) → contains is_name table n ≡ holds_name names.now n) }
{
    let mut table = HashSet::new(alloc);
    note_all(&mut table, names)?;
    Ok(table)
}

/// A table of all names that a heap holds.
pub(crate) fn table_of_heap(alloc: Global, heap: &Heap) -> Result<HashSet<Name>, AllocError>
    ensures { IfOk result (λ table. (n : Name) → contains is_name table n ≡ holds_name (held_in heap.now) n) }
{
    let mut table = HashSet::new(alloc);
    for names in heap.chunks.as_slice() {
        note_all(&mut table, names.as_slice())?;
    }
    note_all(&mut table, heap.large.as_slice())?;
    Ok(table)
}

// Adds names to a table.
fn note_all(table: &mut HashSet<Name>, names: &[Name]) -> Result<(), AllocError>
    ensures { OnOk result ((n : Name) → contains is_name table.new n ≡ contains is_name table.old n || holds_name names.now n) }
{
    for name in names {
        table.insert(*name)?;
    }
    Ok(())
}

/// Those of some names that are in a table, in order.
pub(crate) fn among(
    alloc: Global,
    names: &[Name],
    table: &HashSet<Name>,
) -> Result<Listed<Name>, AllocError>
    ensures { IfOk result (λ found. found ≡ filter (contains is_name table.now) names.now) }
{
    let mut found = Listed::new(alloc);
    keep_into(&mut found, names, table)?;
    Ok(found)
}

/// Those of a heap's small names that are in a table, in order.
pub(crate) fn small_among(
    alloc: Global,
    heap: &Heap,
    table: &HashSet<Name>,
) -> Result<Listed<Name>, AllocError>
    ensures { IfOk result (λ found. found ≡ filter (contains is_name table.now) (small_in heap.now)) }
{
    let mut found = Listed::new(alloc);
    for names in heap.chunks.as_slice() {
        keep_into(&mut found, names.as_slice(), table)?;
    }
    Ok(found)
}

// Appends those of some names that are in a table.
fn keep_into(
    found: &mut Listed<Name>,
    names: &[Name],
    table: &HashSet<Name>,
) -> Result<(), AllocError>
    ensures { OnOk result (found.new ≡ found.old ++ filter (contains is_name table.now) names.now) }
{
    for name in names {
        if table.contains(name) {
            found.push(*name)?;
        }
    }
    Ok(())
}
