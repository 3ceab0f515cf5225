// What is reachable within a heap.

ghost use Rattle.std.specs.Prelude.{◌≡◌, ◌++◌, ◌&&◌, not, [], IfOk, OnOk, filter, slice_get};
ghost use Rattle.std.specs.List.{flat_map};
ghost use Rattle.std.specs.HashSet.{contains};
ghost use Rattle.hh_model.specs.declared.data.Name.{Name};
ghost use Rattle.hh_model.specs.Names.{refs_at, registers};
ghost use Rattle.hh_model.specs.Step.{owner_of};
ghost use Rattle.run_ledger.specs.Reachable.{holds_name, is_name};
ghost use Rattle.run_ledger.specs.Heaps.{frames_of, held, held_in, heap_of, is_proper_ancestor, roots_of, within};
ghost use Rattle.ledger_heaps.specs.Accounts.{accounts, AreOwned};
ghost use Rattle.ledger_heaps.specs.Search.{ancestors, references_from_heaps, Meets};

use crate::names::table_of_heap;
use crate::search::Search;
use hh_model::{MachineState, Name};
use plain_vec::Listed;
use run_ledger::Heap;
use std::alloc::{AllocError, Global};
use std::collections::HashSet;

/// Of the names held in a task's heap, those that are reachable from its roots through that heap, in the heap's order.
/// The names of each heap are owned by its task.
pub fn within(
    alloc: Global,
    machine: &MachineState,
    heaps: &Listed<Heap>,
    t: u32,
) -> Result<Listed<Name>, AllocError>
    requires { AreOwned machine.now.tasks heaps.now }
    ensures { IfOk result (λ names. names ≡ within (accounts machine.now heaps.now) t) }
{
    let Some(heap) = heaps.get(t as usize) else {
        return Ok(Listed::new(alloc));
    };
    let mut search = Search {
        unmet: table_of_heap(alloc, heap)?,
        waiting: Listed::new(alloc),
    };
    if search.unmet.is_empty() {
        return Ok(Listed::new(alloc));
    }
    explore(alloc, &mut search, machine, heaps, t)?;
    let names = met_in(alloc, heap, &search.unmet)?;
    Ok(names)
}

// Meets all that is reachable within the task's heap.
fn explore(
    alloc: Global,
    search: &mut Search,
    machine: &MachineState,
    heaps: &Listed<Heap>,
    t: u32,
) -> Result<(), AllocError>
    requires owned { AreOwned machine.now.tasks heaps.now }
    requires unmet { (n : Name) → contains is_name search.old.unmet n ≡ holds_name (held_in (heap_of (accounts machine.now heaps.now) t)) n }
    requires waiting { search.old.waiting ≡ [] }
    ensures { OnOk result ((n : Name) → contains is_name search.new.unmet n ≡ (holds_name (held_in (heap_of (accounts machine.now heaps.now) t)) n && not (holds_name (within (accounts machine.now heaps.now) t) n))) }
{
    meet_roots(alloc, search, machine, heaps, t)?;
    while let Some(name) = search.waiting.pop() {
        search.follow(machine, name)?;
    }
    Ok(())
}

// Meets the roots of a task's heap.
fn meet_roots(
    alloc: Global,
    search: &mut Search,
    machine: &MachineState,
    heaps: &Listed<Heap>,
    t: u32,
) -> Result<(), AllocError>
    requires { AreOwned machine.now.tasks heaps.now }
    ensures { OnOk result (Meets (roots_of (accounts machine.now heaps.now) t) (contains is_name search.old.unmet) (contains is_name search.new.unmet) search.old.waiting search.new.waiting) }
{
    meet_registers(search, machine, t)?;
    meet_above(alloc, search, machine, heaps, t)
}

// Meets what the registers of a task's frames hold.
fn meet_registers(search: &mut Search, machine: &MachineState, t: u32) -> Result<(), AllocError>
    ensures { OnOk result (Meets (registers (frames_of (slice_get machine.now.tasks t))) (contains is_name search.old.unmet) (contains is_name search.new.unmet) search.old.waiting search.new.waiting) }
{
    let Some(task) = machine.tasks.get(t as usize) else {
        return Ok(());
    };
    search.meet_references(&task.top.refs)?;
    search.meet_frames(task.below.as_slice())
}

// Meets what the held objects of a task's proper ancestors refer to.
fn meet_above(
    alloc: Global,
    search: &mut Search,
    machine: &MachineState,
    heaps: &Listed<Heap>,
    t: u32,
) -> Result<(), AllocError>
    requires { AreOwned machine.now.tasks heaps.now }
    ensures { OnOk result (Meets (flat_map (refs_at machine.now.store) (filter (λ n. is_proper_ancestor machine.now.tasks (owner_of machine.now.tasks n.task) t) (held (accounts machine.now heaps.now)))) (contains is_name search.old.unmet) (contains is_name search.new.unmet) search.old.waiting search.new.waiting) }
{
    let above = ancestors(alloc, machine, t)?;
    follow_heaps(search, machine, heaps, above.as_slice(), t)?;
    Ok(())
}

// The ancestors of a task, the nearest first.
fn ancestors(alloc: Global, machine: &MachineState, t: u32) -> Result<Listed<u32>, AllocError>
    ensures { IfOk result (λ above. above ≡ ancestors machine.now.tasks t) }
{
    let mut above = Listed::new(alloc);
    let mut at = t;
    for _ in 0..t {
        let Some(parent) = machine.parent(at) else {
            return Ok(above);
        };
        above.push(parent)?;
        at = parent;
    }
    Ok(above)
}

// Meets what the objects of these tasks' heaps refer to, except one task's.
fn follow_heaps(
    search: &mut Search,
    machine: &MachineState,
    heaps: &Listed<Heap>,
    tasks: &[u32],
    but: u32,
) -> Result<(), AllocError>
    ensures { OnOk result (Meets (flat_map (references_from_heaps machine.now.store heaps.now but) tasks.now) (contains is_name search.old.unmet) (contains is_name search.new.unmet) search.old.waiting search.new.waiting) }
{
    for task in tasks {
        follow_heap(search, machine, heaps, *task, but)?;
    }
    Ok(())
}

// Meets what the objects of a task's heap refer to, unless it is that task.
fn follow_heap(
    search: &mut Search,
    machine: &MachineState,
    heaps: &Listed<Heap>,
    task: u32,
    but: u32,
) -> Result<(), AllocError>
    ensures { OnOk result (Meets (references_from_heaps machine.now.store heaps.now but task) (contains is_name search.old.unmet) (contains is_name search.new.unmet) search.old.waiting search.new.waiting) }
{
    if task == but {
        return Ok(());
    }
    match heaps.get(task as usize) {
        Some(heap) => search.follow_heap(machine, heap),
        None => Ok(()),
    }
}

// The names of a heap that were met, in order.
fn met_in(alloc: Global, heap: &Heap, unmet: &HashSet<Name>) -> Result<Listed<Name>, AllocError>
    ensures { IfOk result (λ names. names ≡ filter (λ n. not (contains is_name unmet.now n)) (held_in heap.now)) }
{
    let mut met = Listed::new(alloc);
    for names in heap.chunks.as_slice() {
        add_met(&mut met, names.as_slice(), unmet)?;
    }
    add_met(&mut met, heap.large.as_slice(), unmet)?;
    Ok(met)
}

// Adds those of some names that aren't in a table.
fn add_met(met: &mut Listed<Name>, names: &[Name], unmet: &HashSet<Name>) -> Result<(), AllocError>
    ensures { OnOk result (met.new ≡ met.old ++ filter (λ n. not (contains is_name unmet.now n)) names.now) }
{
    for name in names {
        if !unmet.contains(name) {
            met.push(*name)?;
        }
    }
    Ok(())
}
