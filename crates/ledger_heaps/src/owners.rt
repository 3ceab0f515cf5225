// Who owns the names that heaps hold.

ghost use Rattle.std.specs.Prelude.{◌≡◌, ◌↔◌, ◌==◌, IsTrue};
ghost use Rattle.std.specs.List.{list_all};
ghost use Rattle.hh_model.specs.Step.{owner_of};
ghost use Rattle.run_ledger.specs.Heaps.{held_in};
ghost use Rattle.ledger_heaps.specs.Accounts.{AreOwned};

use hh_model::{MachineState, Name};
use plain_vec::Listed;
use run_ledger::Heap;

/// Whether each name that a heap holds is owned by the heap's task, as `within` requires.
pub fn are_owned(machine: &MachineState, heaps: &Listed<Heap>) -> bool
    ensures { IsTrue result ↔ AreOwned machine.now.tasks heaps.now }
{
    for (task, heap) in heaps.as_slice().iter().enumerate() {
        if !owns_heap(machine, task, heap) {
            return false;
        }
    }
    true
}

fn owns_heap(machine: &MachineState, task: usize, heap: &Heap) -> bool
    ensures { result ≡ list_all (λ n. owner_of machine.now.tasks n.task == task) (held_in heap.now) }
{
    for names in heap.chunks.as_slice() {
        if !owns_names(machine, task, names.as_slice()) {
            return false;
        }
    }
    owns_names(machine, task, heap.large.as_slice())
}

fn owns_names(machine: &MachineState, task: usize, names: &[Name]) -> bool
    ensures { result ≡ list_all (λ n. owner_of machine.now.tasks n.task == task) names.now }
{
    names
        .iter()
        .all(|name| machine.owner(name.task) as usize == task)
}
