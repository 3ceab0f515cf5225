// What an entry changes, except for the steps of tasks.

ghost use Rattle.std.specs.Prelude.{◌≡◌, ℕ, Some, ◌+◌, ◌<◌, ◌^◌, OnOk, OnErr, IfOk, slice_set, min};
ghost use Rattle.run_trace.specs.declared.entry.Kind.TheVariants.{Took, Chunk, Begin, PutOff, Mark, More, Fuel};
ghost use Rattle.run_trace.specs.Settings.{worker_limit};
ghost use Rattle.run_ledger.specs.Entries.{after_kind, chunk_units};
ghost use Rattle.hh_model.specs.Step.{asked};
ghost use Rattle.run_ledger.specs.Steps.{on_asked};
ghost use Rattle.run_ledger.specs.Heaps.{is_small_size, heap_of, with_heap, collected, end_numbers, swept_heap, sweep_number, left_in, marked_in};
ghost use Rattle.ledger_heaps.specs.Parts.{with_collected, with_swept};
ghost use Rattle.run_accounts.specs.Accounts.{Steady, CachesAgree};

use crate::accounts::Accounts;
use chunk_sizes::units;
use ledger_heaps::{CHUNK_WORDS, Collected, Swept, collect, fresh, sweep, within};
use plain_vec::Listed;
use run_ledger::RunEnd;
use std::alloc::AllocError;

impl<'p> Accounts<'p> {
    pub(crate) fn took(&mut self, worker: u32, task: u32)
        requires { worker < worker_limit }
        ensures { self.new ≡ record self.old { ledger = after_kind self.old.program self.old.settings self.old.ledger worker (Took task); taken = slice_set self.old.taken worker (Some task) } }
    {
        if (task as usize) < self.heaps.len() {
            self.heaps.at_mut(task as usize).worker = Some(worker);
        }
        self.taken[worker as usize] = Some(task);
    }

    pub(crate) fn put_off(&mut self, task: u32)
        ensures { (worker : ℕ) → self.new ≡ record self.old { ledger = after_kind self.old.program self.old.settings self.old.ledger worker (PutOff task) } }
    {
        if (task as usize) < self.heaps.len() {
            self.heaps.at_mut(task as usize).since = 0;
        }
    }

    pub(crate) fn mark(&mut self, task: u32)
        ensures { (worker : ℕ) → self.new ≡ record self.old { ledger = after_kind self.old.program self.old.settings self.old.ledger worker (Mark task) } }
    {
        if (task as usize) < self.heaps.len() {
            self.heaps.at_mut(task as usize).marked = Some(0);
        }
    }

    pub(crate) fn fuel(&mut self)
        ensures { (worker : ℕ) → self.new ≡ record self.old { ledger = after_kind self.old.program self.old.settings self.old.ledger worker Fuel } }
    {
        self.end = Some(RunEnd::Fuel(self.steps));
    }

    // How many units the chunk has that the task's next step needs.
    fn chunk_units(&self, task: u32) -> u64
        ensures value { result ≡ chunk_units (asked self.now.program self.now.ledger.machine task) }
        ensures fits { result < 2 ^ 55 }
    {
        match self.asked(task) {
            Some(words) if CHUNK_WORDS < words => units(words as u64),
            _ => 1,
        }
    }

    // Whether the task's next step allocates an object that shares a chunk with others.
    fn needs_small(&self, task: u32) -> bool
        ensures { result ≡ on_asked (asked self.now.program self.now.ledger.machine task) is_small_size }
    {
        match self.asked(task) {
            Some(words) => words <= CHUNK_WORDS,
            None => false,
        }
    }

    #[tactic(auto, using(hh_model::proofs::Lists::set_got))]
    /// A chunk is asked for: the run ends if too few are free.
    pub(crate) fn chunk(&mut self, task: u32) -> Result<(), AllocError>
        requires steady { Steady self.old.ledger }
        requires agrees { CachesAgree self.old }
        ensures ok { (worker : ℕ) → OnOk result (self.new ≡ record self.old { ledger = after_kind self.old.program self.old.settings self.old.ledger worker (Chunk task) }) }
        ensures err { OnErr result (self.new ≡ self.old) }
    {
        let units = self.chunk_units(task);
        let in_use = self.in_use();
        let small = self.needs_small(task);
        if in_use + units > self.settings.chunks() as u64 {
            self.end = Some(RunEnd::Pool(in_use as u32));
            return Ok(());
        }
        if (task as usize) < self.heaps.len() {
            let heap = self.heaps.at_mut(task as usize);
            if small {
                heap.chunks.push(Listed::new(self.alloc))?;
                heap.room = CHUNK_WORDS as u32;
            } else {
                heap.reserved = units as u32;
            }
        }
        Ok(())
    }

    /// The task's leaf collection begins.
    pub(crate) fn begin(&mut self, task: u32) -> Result<(), AllocError>
        requires { Steady self.old.ledger }
        ensures ok { (worker : ℕ) → OnOk result (self.new ≡ record self.old { ledger = after_kind self.old.program self.old.settings self.old.ledger worker (Begin task) }) }
        ensures err { OnErr result (self.new ≡ self.old) }
    {
        let survivors = within(self.alloc, self.machine.state(), &self.heaps, task)?;
        let chunks = self.take(task) as u32;
        if (task as usize) < self.heaps.len() {
            let heap = self.heaps.at_mut(task as usize);
            heap.begun = Some(chunks);
            heap.survivors = survivors;
        }
        Ok(())
    }

    /// At most `count` more objects of the heap are marked.
    pub(crate) fn more(&mut self, task: u32, count: u32)
        requires { Steady self.old.ledger }
        ensures { (worker : ℕ) → self.new ≡ record self.old { ledger = after_kind self.old.program self.old.settings self.old.ledger worker (More task count) } }
    {
        let marked = self.marked_by(task, count);
        if (task as usize) < self.heaps.len() {
            self.heaps.at_mut(task as usize).marked = Some(marked);
        }
    }

    #[tactic(auto, using(crate::proofs::Numbers::marked_few))]
    // How many objects of the heap are marked after at most `count` more are.
    fn marked_by(&self, task: u32, count: u32) -> u32
        requires { Steady self.now.ledger }
        ensures { result ≡ marked_in (heap_of self.now.ledger task) + min count (left_in (heap_of self.now.ledger task)) }
    {
        let more = (count as usize).min(self.left(task)) as u32;
        self.marked(task) + more
    }

    /// What the end of the task's leaf collection leaves.
    pub(crate) fn collected(&self, task: u32) -> Result<Collected, AllocError>
        requires { Steady self.now.ledger }
        ensures heap { IfOk result (λ parts. with_collected (heap_of self.now.ledger task) parts ≡ collected self.now.ledger.machine (heap_of self.now.ledger task)) }
        ensures numbers { IfOk result (λ parts. (parts.taken, parts.given, parts.left) ≡ end_numbers self.now.ledger.machine (heap_of self.now.ledger task)) }
    {
        match self.heap(task) {
            Some(heap) => collect(self.alloc, self.machine.state(), heap),
            None => collect(self.alloc, self.machine.state(), &fresh(self.alloc)),
        }
    }

    /// The task's leaf collection ends, which leaves this.
    pub(crate) fn put_collected(&mut self, task: u32, parts: Collected)
        requires { with_collected (heap_of self.old.ledger task) parts ≡ collected self.old.ledger.machine (heap_of self.old.ledger task) }
        ensures { self.new ≡ record self.old { ledger = with_heap self.old.ledger task (collected self.old.ledger.machine) } }
    {
        if (task as usize) < self.heaps.len() {
            parts.put_into(self.heaps.at_mut(task as usize));
        }
    }

    /// What the sweep of the heap leaves.
    pub(crate) fn swept(&self, task: u32) -> Result<Swept, AllocError>
        requires { Steady self.now.ledger }
        ensures heap { IfOk result (λ parts. with_swept (heap_of self.now.ledger task) parts ≡ swept_heap (heap_of self.now.ledger task)) }
        ensures number { IfOk result (λ parts. parts.given ≡ sweep_number self.now.ledger.machine (heap_of self.now.ledger task)) }
    {
        match self.heap(task) {
            Some(heap) => sweep(self.alloc, self.machine.state(), heap),
            None => sweep(self.alloc, self.machine.state(), &fresh(self.alloc)),
        }
    }

    /// The heap is swept, which leaves this.
    pub(crate) fn put_swept(&mut self, task: u32, parts: Swept)
        requires { with_swept (heap_of self.old.ledger task) parts ≡ swept_heap (heap_of self.old.ledger task) }
        ensures { self.new ≡ record self.old { ledger = with_heap self.old.ledger task swept_heap } }
    {
        if (task as usize) < self.heaps.len() {
            parts.put_into(self.heaps.at_mut(task as usize));
        }
    }
}
