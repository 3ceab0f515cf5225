// What is read of a book for a report.

ghost use Rattle.std.specs.Prelude.{◌≡◌, false, length};
ghost use Rattle.run_ledger.specs.Heaps.{heap_of, words_in, words_sum};
ghost use Rattle.run_ledger.specs.Report.{held_not_running};

use crate::book::Book;
use run_accounts::Held;

impl<'p> Book<'p> {
    /// The tasks made, including the first.
    pub fn tasks(&self) -> usize
        ensures { result ≡ length self.now.ledger.machine.tasks }
    {
        self.state().tasks.len()
    }

    /// The words of all that a task's heap holds.
    pub fn words(&self, task: u32) -> u64
        requires { self.now.stopped ≡ false }
        ensures { result ≡ words_in self.now.ledger.machine (heap_of self.now.ledger task) }
    {
        self.accounts.bounds();
        self.accounts.words(task)
    }

    /// What is held in the heaps of tasks that don't run.
    pub fn held(&self) -> Held
        requires { self.now.stopped ≡ false }
        ensures objects { result.objects ≡ length (held_not_running self.now.ledger) }
        ensures words { result.words ≡ words_sum self.now.ledger.machine (held_not_running self.now.ledger) }
    {
        self.accounts.bounds();
        self.accounts.held()
    }
}
