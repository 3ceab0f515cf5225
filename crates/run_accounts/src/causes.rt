// Why an entry is refused, except for the steps of tasks.

ghost use Rattle.std.specs.Prelude.{◌≡◌, ℕ, ◌==◌, ◌<◌, ◌^◌, None, is_some};
ghost use Rattle.run_trace.specs.declared.entry.Kind.TheVariants.{Took, Chunk, Begin, PutOff, Mark, More, Fuel};
ghost use Rattle.run_ledger.specs.Entries.{kind_refusal, on_running, on_waiting, on_marking, on_due, is_pool_enough, is_out, refused_unless, unless_wrong_number, ends_as};
ghost use Rattle.run_ledger.specs.Heaps.{heap_of, left_in, marked_in};
ghost use Rattle.run_ledger.specs.declared.data.Refused.TheVariants.{NotOut, NotCollecting, Left};
ghost use Rattle.run_accounts.specs.Accounts.{Steady, CachesAgree};

use crate::accounts::Accounts;
use run_ledger::Refused;

impl<'p> Accounts<'p> {
    // The worker must hold the task, which must be in no leaf collection.
    pub(crate) fn running_cause(&self, worker: u32, task: u32) -> Option<Refused>
        ensures { result ≡ on_running self.now.ledger worker task None }
    {
        if !self.is_out(worker, task) {
            return Some(Refused::NotOut);
        }
        if self.is_collecting(task) {
            return Some(Refused::Collecting);
        }
        None
    }

    // The task must wait, and its heap must not have been swept since its last fork.
    fn waiting_cause(&self, task: u32) -> Option<Refused>
        ensures { result ≡ on_waiting self.now.ledger task None }
    {
        if !self.is_waiting(task) {
            return Some(Refused::NotWaiting);
        }
        if self.is_swept(task) {
            return Some(Refused::Swept);
        }
        None
    }

    // Its heap must be being marked.
    fn marking_cause(&self, task: u32) -> Option<Refused>
        ensures { result ≡ on_marking self.now.ledger task None }
    {
        if let Some(cause) = self.waiting_cause(task) {
            return Some(cause);
        }
        if !self.is_marked(task) {
            return Some(Refused::NotMarking);
        }
        None
    }

    // A leaf collection of the task must be due, and the worker must hold it.
    fn due_cause(&self, worker: u32, task: u32) -> Option<Refused>
        ensures { result ≡ on_running self.now.ledger worker task (on_due self.now.settings self.now.program self.now.ledger task None) }
    {
        if let Some(cause) = self.running_cause(worker, task) {
            return Some(cause);
        }
        if !self.is_due(task) {
            return Some(Refused::NotDue(self.since(task)));
        }
        None
    }

    // Whether enough chunks are free for a leaf collection of the task.
    fn is_pool_enough(&self, task: u32) -> bool
        requires steady { Steady self.now.ledger }
        requires agrees { CachesAgree self.now }
        ensures { result ≡ is_pool_enough self.now.settings self.now.ledger task }
    {
        self.in_use() + self.take(task) <= self.settings.chunks() as u64
    }

    pub(crate) fn took_cause(&self, worker: u32, task: u32) -> Option<Refused>
        requires { CachesAgree self.now }
        ensures { result ≡ kind_refusal self.now.program self.now.settings self.now.ledger worker (Took task) }
    {
        if !self.is_ready(task) {
            return Some(Refused::NotReady);
        }
        match self.holding(worker) {
            Some(held) => Some(Refused::Holding(held)),
            None => None,
        }
    }

    pub(crate) fn chunk_cause(&self, worker: u32, task: u32) -> Option<Refused>
        ensures { result ≡ kind_refusal self.now.program self.now.settings self.now.ledger worker (Chunk task) }
    {
        if let Some(cause) = self.running_cause(worker, task) {
            return Some(cause);
        }
        if self.is_due(task) {
            return Some(Refused::Due(self.since(task)));
        }
        if !self.is_in_need(task) {
            return Some(Refused::NotNeeded(self.room(task)));
        }
        None
    }

    pub(crate) fn begin_cause(&self, worker: u32, task: u32) -> Option<Refused>
        requires steady { Steady self.now.ledger }
        requires agrees { CachesAgree self.now }
        ensures { result ≡ kind_refusal self.now.program self.now.settings self.now.ledger worker (Begin task) }
    {
        if let Some(cause) = self.due_cause(worker, task) {
            return Some(cause);
        }
        if !self.is_pool_enough(task) {
            return Some(Refused::PoolShort(self.in_use() as u32));
        }
        None
    }

    pub(crate) fn put_off_cause(&self, worker: u32, task: u32) -> Option<Refused>
        requires steady { Steady self.now.ledger }
        requires agrees { CachesAgree self.now }
        ensures { result ≡ kind_refusal self.now.program self.now.settings self.now.ledger worker (PutOff task) }
    {
        if let Some(cause) = self.due_cause(worker, task) {
            return Some(cause);
        }
        if self.is_pool_enough(task) {
            return Some(Refused::PoolEnough(self.in_use() as u32));
        }
        None
    }

    pub(crate) fn mark_cause(&self, task: u32) -> Option<Refused>
        requires { Steady self.now.ledger }
        ensures { (worker : ℕ) → result ≡ kind_refusal self.now.program self.now.settings self.now.ledger worker (Mark task) }
    {
        if let Some(cause) = self.waiting_cause(task) {
            return Some(cause);
        }
        if self.is_marked(task) {
            return Some(Refused::Marking);
        }
        let words = self.words(task);
        if words < self.settings.inner() as u64 {
            return Some(Refused::NotDue(words));
        }
        None
    }

    pub(crate) fn more_cause(&self, task: u32) -> Option<Refused>
        ensures { (worker count : ℕ) → result ≡ kind_refusal self.now.program self.now.settings self.now.ledger worker (More task count) }
    {
        if let Some(cause) = self.marking_cause(task) {
            return Some(cause);
        }
        if self.left(task) == 0 {
            return Some(Refused::Marked);
        }
        None
    }

    pub(crate) fn fuel_cause(&self) -> Option<Refused>
        ensures { (worker : ℕ) → result ≡ kind_refusal self.now.program self.now.settings self.now.ledger worker Fuel }
    {
        if self.steps < self.settings.fuel() {
            return Some(Refused::NotSpent(self.steps));
        }
        None
    }

    // The worker must hold the task, whose leaf collection has begun.
    pub(crate) fn collecting_cause(&self, worker: u32, task: u32) -> Option<Refused>
        ensures { result ≡ refused_unless (is_out self.now.ledger worker task) NotOut (refused_unless (is_some (heap_of self.now.ledger task).begun) NotCollecting None) }
    {
        if !self.is_out(worker, task) {
            return Some(Refused::NotOut);
        }
        if !self.is_collecting(task) {
            return Some(Refused::NotCollecting);
        }
        None
    }

    // The heap must be being marked, with nothing left to mark.
    pub(crate) fn marked_cause(&self, task: u32) -> Option<Refused>
        ensures { result ≡ on_marking self.now.ledger task (refused_unless (left_in (heap_of self.now.ledger task) == 0) (Left (marked_in (heap_of self.now.ledger task))) None) }
    {
        if let Some(cause) = self.marking_cause(task) {
            return Some(cause);
        }
        if self.left(task) != 0 {
            return Some(Refused::Left(self.marked(task)));
        }
        None
    }
}

/// A number of an entry must have its right value.
pub(crate) fn count_cause(said: u32, is: u64) -> Option<Refused>
    requires { is < 2 ^ 32 }
    ensures { result ≡ unless_wrong_number said is None }
{
    if said as u64 == is {
        None
    } else {
        Some(Refused::Count(said, is as u32))
    }
}

/// The three numbers of the end of a leaf collection must have their right values.
pub(crate) fn end_cause(said: (u32, u32, u32), is: (u64, u64, u64)) -> Option<Refused>
    requires { (is.0 < 2 ^ 32) × (is.1 < 2 ^ 32) × (is.2 < 2 ^ 32) }
    ensures { result ≡ ends_as (said.0, said.1, said.2) (is.0, is.1, is.2) }
{
    if let Some(cause) = count_cause(said.0, is.0) {
        return Some(cause);
    }
    if let Some(cause) = count_cause(said.1, is.1) {
        return Some(cause);
    }
    count_cause(said.2, is.2)
}
