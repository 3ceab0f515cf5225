// What a step reads of the whole state.

ghost use Rattle.std.specs.Prelude.{◌≡◌, ◌<◌, length, option_copied, slice_get, IfSome};
ghost use Rattle.hh_model.specs.Effect.{object_at};
ghost use Rattle.hh_model.specs.Step.{asked, can_step, is_on_path, owner_of, parents, joined, result_at, strand_of};

use crate::data::{MachineState, Name, Object, Strand, TaskStatus};
use hh_lang::Program;

impl MachineState {
    /// Whether the task runs and the machine hasn't ended.
    #[inline(always)]
    pub fn can_step(&self, t: u32) -> bool
        ensures { result ≡ can_step self.now t }
    {
        match (&self.end, self.tasks.get(t as usize)) {
            (None, Some(task)) => match task.status {
                TaskStatus::Running => true,
                _ => false,
            },
            _ => false,
        }
    }

    /// The object of a name.
    #[inline(always)]
    pub fn object(&self, name: Name) -> Option<&Object>
        ensures { option_copied result ≡ object_at self.now.store name }
    {
        match self.store.get(name.task as usize) {
            Some(row) => row.get(name.count as usize),
            None => None,
        }
    }

    /// The words that the next step of a task allocates, if it allocates.
    pub fn asked(&self, program: &Program, t: u32) -> Option<usize>
        ensures { result ≡ asked program.now self.now t }
    {
        let task = self.tasks.get(t as usize)?;
        match task.status {
            TaskStatus::Running => {}
            _ => return None,
        }
        let line = program.line(task.top.function, task.top.next)?;
        task.top.asked(self.field_limit, line.instr)
    }

    /// The strand of a task.
    pub fn strand(&self, t: u32) -> Strand
        requires { t < length self.now.tasks }
        ensures { IfSome (slice_get self.now.tasks t) (λ x. result ≡ strand_of t x) }
    {
        Strand {
            task: t,
            joins: self.tasks.at(t as usize).joins,
        }
    }

    /// The parent of a task; None for the root, and if there is no such task.
    #[inline(always)]
    pub fn parent(&self, t: u32) -> Option<u32>
        ensures { result ≡ parents self.now.tasks t }
    {
        match self.tasks.get(t as usize) {
            Some(task) => task.parent,
            None => None,
        }
    }

    #[inline(always)]
    fn has_joined(&self, t: u32) -> bool
        ensures { result ≡ joined self.now.tasks t }
    {
        match self.tasks.get(t as usize) {
            Some(task) => match task.status {
                TaskStatus::Joined => true,
                _ => false,
            },
            None => false,
        }
    }

    /// What a task ended with, if it has ended and not joined.
    pub(crate) fn result(&self, t: u32) -> Option<(i64, Option<Name>)>
        ensures { result ≡ result_at (slice_get self.now.tasks t) }
    {
        match self.tasks.get(t as usize) {
            Some(task) => match task.status {
                TaskStatus::Ended(int, reference) => Some((int, reference)),
                _ => None,
            },
            None => None,
        }
    }

    /// The owner of what a task allocated.
    pub fn owner(&self, task: u32) -> u32
        ensures { result ≡ owner_of self.now.tasks task }
    {
        let mut at = task;
        for _ in 0..task {
            if !self.has_joined(at) {
                return at;
            }
            match self.parent(at) {
                Some(parent) => at = parent,
                None => return at,
            }
        }
        at
    }

    /// Whether a task is another one or an ancestor of it.
    pub fn is_on_path(&self, above: u32, task: u32) -> bool
        ensures { result ≡ is_on_path self.now.tasks above task }
    {
        let mut at = task;
        for _ in 0..task {
            if at == above {
                return true;
            }
            match self.parent(at) {
                Some(parent) => at = parent,
                None => return false,
            }
        }
        at == above
    }
}
