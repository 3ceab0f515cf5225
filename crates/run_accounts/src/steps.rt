// The steps of tasks, with what they change of the accounts.

ghost use Rattle.std.specs.Prelude.{◌≡◌, ℕ, ◌+◌, ◌<◌, ◌^◌, Some, true, false, length, slice_get, OnOk};
ghost use Rattle.run_ledger.specs.Heaps.{heap_of, in_use, or_fresh, with_heap, let_go};
ghost use Rattle.run_ledger.specs.Steps.{allocated_in, is_in_need, task_step, at_fork, at_join, settled};
ghost use Rattle.hh_model.specs.Step.{asked, step, is_joined, is_waiting};
ghost use Rattle.ledger_heaps.specs.Accounts.{AreOwned};
ghost use Rattle.run_accounts.specs.Accounts.{Steady, Forks, JoinsHeaps, ChildrenArePaired, left_of_pair, next_large, used_after, went_on};

use crate::accounts::Accounts;
use hh_model::{MachineState, Name, TaskStatus};
use ledger_heaps::{CHUNK_WORDS, fresh, join, place, within};
use next_steps::objects_of;
use plain_vec::Listed;
use run_ledger::{Heap, RunEnd};
use std::alloc::{AllocError, Global};

impl<'p> Accounts<'p> {
    // The large object that the task's next step, which allocates `words` words, allocates, if it does.
    fn next_large(&self, t: u32, words: Option<usize>) -> Option<Name>
        requires few { self.now.ledger.steps < 2 ^ 30 }
        requires words { words ≡ asked self.now.program self.now.ledger.machine t }
        ensures { result ≡ next_large self.now.program self.now.ledger t }
    {
        match words {
            Some(words) if CHUNK_WORDS < words => Some(Name {
                task: t,
                count: objects_of(&self.machine, t) as u32,
            }),
            _ => None,
        }
    }

    // What the task's next step, which allocates `words` words, allocates is held from now on.
    fn allocate(&mut self, t: u32, words: Option<usize>) -> Result<(), AllocError>
        requires words { words ≡ asked self.old.program self.old.ledger.machine t }
        requires steady { Steady self.old.ledger }
        requires placed { is_in_need self.old.program self.old.ledger t ≡ false }
        ensures { OnOk result (self.new ≡ record self.old { ledger = allocated_in self.old.program self.old.ledger t }) }
    {
        let Some(words) = words else {
            return Ok(());
        };
        let name = Name {
            task: t,
            count: objects_of(&self.machine, t) as u32,
        };
        if (t as usize) < self.heaps.len() {
            place(self.alloc, self.heaps.at_mut(t as usize), name, words)?;
        }
        Ok(())
    }

    // Nobody holds the task any more.
    fn let_go(&mut self, t: u32)
        ensures { self.new ≡ record self.old { ledger = with_heap self.old.ledger t let_go } }
    {
        if (t as usize) < self.heaps.len() {
            self.heaps.at_mut(t as usize).worker = None;
        }
    }

    // A fork: what is reachable within the parent's heap is recorded, and the children begin with empty heaps.
    fn fork(&mut self, t: u32) -> Result<(), AllocError>
        requires { AreOwned self.old.ledger.machine.tasks self.old.ledger.heaps }
        ensures { OnOk result (self.new ≡ record self.old { ledger = at_fork self.old.ledger t }) }
    {
        let names = within(self.alloc, self.machine.state(), &self.heaps, t)?;
        fork_heaps(self.alloc, &mut self.heaps, t, names)
    }

    // The parent's heap gets all that the heaps of its children hold, one of which is the task.
    fn join(&mut self, parent: u32, t: u32) -> Result<(), AllocError>
        requires since { (u : ℕ) → (heap_of self.old.ledger u).since < 2 ^ 62 }
        requires paired { (parent < left_of_pair t) × (left_of_pair t + 1 < length self.old.ledger.heaps) }
        ensures { OnOk result (self.new ≡ record self.old { ledger = at_join self.old.ledger t (Some parent) }) }
    {
        let left = if t % 2 == 1 { t } else { t.saturating_sub(1) };
        join_three(self.alloc, &mut self.heaps, parent, left)
    }

    // Updates the accounts after a step of the task.
    fn settle(&mut self, t: u32) -> Result<(), AllocError>
        requires since { (u : ℕ) → (heap_of self.old.ledger u).since < 2 ^ 62 }
        requires owned { is_waiting (slice_get self.old.ledger.machine.tasks t) ≡ true → AreOwned self.old.ledger.machine.tasks self.old.ledger.heaps }
        requires paired { is_joined (slice_get self.old.ledger.machine.tasks t) ≡ true → ChildrenArePaired self.old.ledger }
        ensures { OnOk result (self.new ≡ record self.old { ledger = settled self.old.ledger t self.old.ledger.machine.end }) }
    {
        if let Some(end) = self.machine.end() {
            self.end = Some(RunEnd::Machine(end));
            return Ok(());
        }
        let Some(task) = self.machine.state().tasks.get(t as usize) else {
            return Ok(());
        };
        let parent = task.parent;
        match task.status {
            TaskStatus::Running => Ok(()),
            TaskStatus::Waiting => self.fork(t),
            TaskStatus::Ended(_, _) => {
                self.let_go(t);
                Ok(())
            }
            TaskStatus::Joined => match parent {
                Some(parent) => self.join(parent, t),
                None => Ok(()),
            },
        }
    }

    // The machine takes a step that it can take.
    fn advance(&mut self, t: u32) -> Result<(), AllocError>
        requires { self.old.ledger.steps < 2 ^ 30 }
        ensures { OnOk result (self.new ≡ record self.old { ledger = record self.old.ledger { machine = step self.old.program self.old.ledger.machine t; steps = self.old.ledger.steps + 1 } }) }
    {
        match self.machine.step(t) {
            Ok(()) => {
                self.steps += 1;
                Ok(())
            }
            Err(_) => Err(AllocError),
        }
    }

    /// One step of a task, which allocates `words` words, with its accounts.
    pub(crate) fn step(&mut self, t: u32, words: Option<usize>) -> Result<(), AllocError>
        requires words { words ≡ asked self.old.program self.old.ledger.machine t }
        requires before { Steady self.old.ledger }
        requires after { Steady (task_step self.old.program self.old.ledger t) }
        requires placed { is_in_need self.old.program self.old.ledger t ≡ false }
        requires used { self.old.used ≡ in_use self.old.ledger }
        requires next { used_after self.old.program self.old.ledger t ≡ in_use (task_step self.old.program self.old.ledger t) }
        ensures { OnOk result (self.new ≡ went_on self.old (task_step self.old.program self.old.ledger t)) }
    {
        if !self.machine.state().can_step(t) {
            self.steps += 1;
            return Ok(());
        }
        if words.is_none() {
            self.advance(t)?;
            return self.settle(t);
        }
        let large = self.next_large(t, words);
        let reserved = self.reserved(t);
        self.allocate(t, words)?;
        self.advance(t)?;
        self.count_large(large, reserved);
        self.settle(t)
    }
}

// The heap of a task that forks, in which these names are reachable, and those of its children.
fn fork_heaps(
    alloc: Global,
    heaps: &mut Listed<Heap>,
    t: u32,
    names: Listed<Name>,
) -> Result<(), AllocError>
    ensures { OnOk result (Forks heaps.old heaps.new t names) }
{
    heaps.push_pair(fresh(alloc), fresh(alloc))?;
    if (t as usize) < heaps.len() {
        let heap = heaps.at_mut(t as usize);
        heap.worker = None;
        heap.snapshot = names;
        heap.marked = None;
        heap.swept = false;
    }
    Ok(())
}

// The heap of a parent gets all that those of its children hold, the next two from the left one on.
fn join_three(
    alloc: Global,
    heaps: &mut Listed<Heap>,
    parent: u32,
    left: u32,
) -> Result<(), AllocError>
    requires since { (u : ℕ) → (or_fresh (slice_get heaps.old u)).since < 2 ^ 62 }
    requires above { parent < left }
    requires there { left + 1 < length heaps.old }
    ensures { OnOk result (JoinsHeaps heaps.old heaps.new parent left) }
{
    join(alloc, heaps, parent, left)
}
