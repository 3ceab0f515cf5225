// The accounts of a run as a value, and look-ups in them.

ghost use Rattle.std.specs.Prelude.{◌≡◌, ◌<◌, ◌^◌, IfOk, None, slice_get, option_copied, is_some, unwrap_or, replicate};
ghost use Rattle.run_ledger.specs.Heaps.{heap_at, heap_of, marked_in, left_in, words_in, take_of, in_use};
ghost use Rattle.run_ledger.specs.Steps.{is_due, is_in_need};
ghost use Rattle.run_ledger.specs.Entries.{is_ready, is_out, out_from};
ghost use Rattle.run_ledger.specs.Journals.{opening};
ghost use Rattle.hh_model.specs.Step.{is_running, is_waiting, asked};
ghost use Rattle.run_trace.specs.Settings.{AreSettings, worker_limit};
ghost use Rattle.run_accounts.specs.Accounts.{AccountsValue, Steady, CachesAgree};

use chunk_sizes::units;
use hh_lang::Program;
use hh_model::{Machine, MachineState, TaskStatus};
use ledger_heaps::{CHUNK_WORDS, fresh, take_of, words_in};
use plain_vec::Listed;
use run_ledger::{Heap, RunEnd};
use run_trace::{Settings, WORKER_LIMIT};
use std::alloc::{AllocError, Global};
use std::marker::Model;

// A slot for each possible worker.
const PLACES: usize = WORKER_LIMIT as usize;

/// The accounts of a run, with the machine that never collects.
#[derive(Drop)]
pub struct Accounts<'p> {
    pub(crate) alloc: Global,
    pub(crate) program: &'p Program,
    pub(crate) settings: Settings,
    pub(crate) machine: Machine<'p>,
    pub(crate) heaps: Listed<Heap>,
    pub(crate) steps: u64,
    pub(crate) end: Option<RunEnd>,
    /// The chunks in use, in units.
    pub(crate) used: u64,
    /// For each worker, the task that it took last.
    pub(crate) taken: [Option<u32>; PLACES],
}

impl<'p> Model for Accounts<'p> {
    ghost use Rattle.run_accounts.specs.Accounts.{AccountsValue};
    ghost use Rattle.std.specs.Prelude.{◌≡◌, ◌≤◌};

    ghost Value = { AccountsValue };

    ghost view = { λ a. record {
      program = a.program.now;
      settings = a.settings;
      ledger = record { machine = a.machine.state; heaps = a.heaps; steps = a.steps; end = a.end };
      used = a.used;
      taken = a.taken;
    } };

    ghost invariant = { λ a. (a.machine.steps ≤ a.steps) × (a.machine.program ≡ a.program.now) };
}

impl<'p> Accounts<'p> {
    /// The accounts of a run before its first entry.
    pub fn open(
        alloc: Global,
        program: &'p Program,
        settings: Settings,
    ) -> Result<Accounts<'p>, AllocError>
        ensures { IfOk result (λ a. a ≡ record { program = program.entry.now; settings = settings; ledger = opening program.entry.now settings; used = 0; taken = replicate worker_limit None }) }
    {
        let machine = Machine::start(alloc, program, settings.version().field_limit())?;
        let mut heaps = Listed::new(alloc);
        heaps.push(fresh(alloc))?;
        Ok(Accounts {
            alloc,
            program,
            settings,
            machine,
            heaps,
            steps: 0,
            end: None,
            used: 0,
            taken: [None; PLACES],
        })
    }

    /// The settings are in their ranges.
    pub fn bounds(&self)
        ensures { AreSettings self.now.settings }
    {
        let _ = self.settings.workers();
    }

    /// The account of a task's heap.
    pub(crate) fn heap(&self, task: u32) -> Option<&Heap>
        ensures { option_copied result ≡ heap_at self.now.ledger task }
    {
        self.heaps.get(task as usize)
    }

    /// The words allocated since the heap's last leaf collection.
    pub(crate) fn since(&self, task: u32) -> u64
        ensures { result ≡ (heap_of self.now.ledger task).since }
    {
        match self.heap(task) {
            Some(heap) => heap.since,
            None => 0,
        }
    }

    /// The words left in the heap's last chunk.
    pub(crate) fn room(&self, task: u32) -> u32
        ensures { result ≡ (heap_of self.now.ledger task).room }
    {
        match self.heap(task) {
            Some(heap) => heap.room,
            None => 0,
        }
    }

    /// The units of the heap's chunk that is reserved for a large object.
    pub(crate) fn reserved(&self, task: u32) -> u32
        ensures { result ≡ (heap_of self.now.ledger task).reserved }
    {
        match self.heap(task) {
            Some(heap) => heap.reserved,
            None => 0,
        }
    }

    /// Whether the task's leaf collection has begun and not ended.
    pub(crate) fn is_collecting(&self, task: u32) -> bool
        ensures { result ≡ is_some (heap_of self.now.ledger task).begun }
    {
        match self.heap(task) {
            Some(heap) => heap.begun.is_some(),
            None => false,
        }
    }

    /// Whether the heap was swept since the task's last fork.
    pub fn is_swept(&self, task: u32) -> bool
        ensures { result ≡ (heap_of self.now.ledger task).swept }
    {
        match self.heap(task) {
            Some(heap) => heap.swept,
            None => false,
        }
    }

    /// Whether the heap is being marked.
    pub fn is_marked(&self, task: u32) -> bool
        ensures { result ≡ is_some (heap_of self.now.ledger task).marked }
    {
        match self.heap(task) {
            Some(heap) => heap.marked.is_some(),
            None => false,
        }
    }

    /// How many of the heap's objects are marked.
    pub(crate) fn marked(&self, task: u32) -> u32
        ensures { result ≡ marked_in (heap_of self.now.ledger task) }
    {
        match self.heap(task) {
            Some(heap) => heap.marked.unwrap_or(0),
            None => 0,
        }
    }

    /// How many objects of the heap's snapshot are left to mark.
    pub fn left(&self, task: u32) -> usize
        ensures { result ≡ left_in (heap_of self.now.ledger task) }
    {
        match self.heap(task) {
            Some(heap) => heap
                .snapshot
                .len()
                .saturating_sub(heap.marked.unwrap_or(0) as usize),
            None => 0,
        }
    }

    /// The words of all that the heap holds.
    pub fn words(&self, task: u32) -> u64
        requires { Steady self.now.ledger }
        ensures { result ≡ words_in self.now.ledger.machine (heap_of self.now.ledger task) }
    {
        match self.heap(task) {
            Some(heap) => words_in(self.machine.state(), heap),
            None => 0,
        }
    }

    #[tactic(auto, using(crate::proofs::Numbers::take_few))]
    /// How many chunks a leaf collection of the heap takes.
    pub(crate) fn take(&self, task: u32) -> u64
        requires { Steady self.now.ledger }
        ensures value { result ≡ take_of self.now.ledger.machine (heap_of self.now.ledger task) }
        ensures fits { result < 2 ^ 32 }
    {
        match self.heap(task) {
            Some(heap) => take_of(self.machine.state(), heap),
            None => 1,
        }
    }

    /// The chunks in use, in units.
    pub fn in_use(&self) -> u64
        requires { CachesAgree self.now }
        ensures { result ≡ in_use self.now.ledger }
    {
        self.used
    }

    // The task that the worker took last.
    fn last_taken(&self, worker: u32) -> Option<u32>
        ensures { result ≡ unwrap_or (slice_get self.now.taken worker) None }
    {
        match self.taken.get(worker as usize) {
            Some(task) => *task,
            None => None,
        }
    }

    #[tactic(auto, using(crate::proofs::Holds::holds_none, crate::proofs::Holds::holds_last, crate::proofs::Holds::holds_no_more))]
    /// The task that the worker holds.
    pub(crate) fn holding(&self, worker: u32) -> Option<u32>
        requires { CachesAgree self.now }
        ensures { result ≡ out_from worker 0 self.now.ledger.heaps }
    {
        let task = self.last_taken(worker)?;
        if self.worker(task) == Some(worker) {
            Some(task)
        } else {
            None
        }
    }

    /// The words that the next step of a task allocates, if it allocates.
    pub(crate) fn asked(&self, task: u32) -> Option<usize>
        ensures { result ≡ asked self.now.program self.now.ledger.machine task }
    {
        self.machine.state().asked(self.program, task)
    }

    /// Whether the next step of a task allocates, and a leaf collection is due.
    pub(crate) fn is_due(&self, task: u32) -> bool
        ensures { result ≡ is_due self.now.settings self.now.program self.now.ledger task }
    {
        self.is_due_by(task, self.asked(task))
    }

    /// Like `is_due`, given the words that the step allocates.
    pub(crate) fn is_due_by(&self, task: u32, words: Option<usize>) -> bool
        requires { words ≡ asked self.now.program self.now.ledger.machine task }
        ensures { result ≡ is_due self.now.settings self.now.program self.now.ledger task }
    {
        match words {
            Some(_) => self.settings.leaf() as u64 <= self.since(task),
            None => false,
        }
    }

    /// Whether the next step of a task allocates, and its object doesn't fit yet.
    pub(crate) fn is_in_need(&self, task: u32) -> bool
        ensures { result ≡ is_in_need self.now.program self.now.ledger task }
    {
        self.is_in_need_by(task, self.asked(task))
    }

    /// Like `is_in_need`, given the words that the step allocates.
    pub(crate) fn is_in_need_by(&self, task: u32, words: Option<usize>) -> bool
        requires { words ≡ asked self.now.program self.now.ledger.machine task }
        ensures { result ≡ is_in_need self.now.program self.now.ledger task }
    {
        match words {
            Some(words) if words <= CHUNK_WORDS => (self.room(task) as usize) < words,
            Some(words) => self.reserved(task) as u64 != units(words as u64),
            None => false,
        }
    }

    /// Whether the task waits for its children.
    pub fn is_waiting(&self, task: u32) -> bool
        ensures { result ≡ is_waiting (slice_get self.now.ledger.machine.tasks task) }
    {
        match self.machine.state().tasks.get(task as usize) {
            Some(task) => match task.status {
                TaskStatus::Waiting => true,
                _ => false,
            },
            None => false,
        }
    }

    /// Whether the task runs.
    pub(crate) fn is_running(&self, task: u32) -> bool
        ensures { result ≡ is_running (slice_get self.now.ledger.machine.tasks task) }
    {
        match self.machine.state().tasks.get(task as usize) {
            Some(task) => match task.status {
                TaskStatus::Running => true,
                _ => false,
            },
            None => false,
        }
    }

    /// The worker that holds the task.
    pub(crate) fn worker(&self, task: u32) -> Option<u32>
        ensures { result ≡ (heap_of self.now.ledger task).worker }
    {
        self.heap(task)?.worker
    }

    /// Whether the task runs and the worker holds it.
    pub(crate) fn is_out(&self, worker: u32, task: u32) -> bool
        ensures { result ≡ is_out self.now.ledger worker task }
    {
        self.is_running(task) && self.worker(task) == Some(worker)
    }

    /// Whether the task runs and nobody holds it.
    pub(crate) fn is_ready(&self, task: u32) -> bool
        ensures { result ≡ is_ready self.now.ledger task }
    {
        self.is_running(task) && self.worker(task).is_none()
    }
}
