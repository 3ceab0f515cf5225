// What is read of accounts for a report.

ghost use Rattle.std.specs.Prelude.{◌≡◌, ◌<◌, ◌^◌, length};
ghost use Rattle.run_ledger.specs.Heaps.{held_in, words_in, words_sum};
ghost use Rattle.run_ledger.specs.Report.{held_not_running};
ghost use Rattle.run_accounts.specs.Accounts.{Steady};
ghost use Rattle.run_accounts.specs.Held.{IsCountable, held_unless_running};

use crate::accounts::Accounts;
use ledger_heaps::words_in;
use run_ledger::Heap;

/// What is held in the heaps of tasks that don't run.
#[derive(Clone, Copy)]
pub struct Held {
    /// How many objects.
    pub objects: u64,
    /// Their words.
    pub words: u64,
}

// How many objects the heap holds.
fn objects_in(heap: &Heap) -> u64
    requires { length (held_in heap.now) < 2 ^ 62 }
    ensures { result ≡ length (held_in heap.now) }
{
    let mut objects = heap.large.len() as u64;
    for names in heap.chunks.as_slice() {
        objects += names.len() as u64;
    }
    objects
}

impl<'p> Accounts<'p> {
    // What is held in the task's heap, unless the task runs.
    fn held_unless_running(&self, task: u32, heap: &Heap) -> Held
        requires objects { length (held_in heap.now) < 2 ^ 62 }
        requires words { words_in self.now.ledger.machine heap.now < 2 ^ 62 }
        ensures objects { result.objects ≡ length (held_unless_running self.now.ledger.machine.tasks task heap.now) }
        ensures words { result.words ≡ words_sum self.now.ledger.machine (held_unless_running self.now.ledger.machine.tasks task heap.now) }
    {
        if self.is_running(task) {
            return Held {
                objects: 0,
                words: 0,
            };
        }
        Held {
            objects: objects_in(heap),
            words: words_in(self.machine.state(), heap),
        }
    }

    /// What is held in the heaps of tasks that don't run.
    pub fn held(&self) -> Held
        requires steady { Steady self.now.ledger }
        requires countable { IsCountable self.now.ledger }
        ensures objects { result.objects ≡ length (held_not_running self.now.ledger) }
        ensures words { result.words ≡ words_sum self.now.ledger.machine (held_not_running self.now.ledger) }
    {
        let mut held = Held {
            objects: 0,
            words: 0,
        };
        for (task, heap) in self.heaps.as_slice().iter().enumerate() {
            let here = self.held_unless_running(task as u32, heap);
            held.objects += here.objects;
            held.words += here.words;
        }
        held
    }
}
