// Returns of frames, ends of tasks and joins: each function allocates all its memory before its first change.

ghost use Rattle.std.specs.Prelude.{◌≡◌, ◌<◌, ◌+◌, ◌^◌, ℕ, length, slice_get, IfSome, OnOk, OnErr, Some};
ghost use Rattle.hh_model.specs.declared.data.Task.{Task};
ghost use Rattle.hh_model.specs.Step.{with_task, ended_by, join_of, ended_task, child_ended, sibling, returned, parents};

use crate::data::{Edge, End, MachineState, Name, Strand, TaskStatus};
use std::alloc::AllocError;

impl MachineState {
    /// The top frame of a task returns.
    #[tactic(auto, using(crate::proofs::Lists::set_again, hh_lang::proofs::below::plain_vec::got_same))]
    pub(crate) fn return_frame(&mut self, t: u32) -> Result<(), AllocError>
        requires made { t < length self.old.tasks }
        requires fits { length self.old.tasks < 2 ^ 32 }
        requires below { (p : ℕ) → parents self.old.tasks t ≡ Some p → p < t }
        requires below_sibling { (p : ℕ) → parents self.old.tasks t ≡ Some p → p < sibling t }
        requires joins { (p : ℕ) (x : Task) → slice_get self.old.tasks p ≡ Some x → x.joins + 1 < 2 ^ 32 }
        ensures ok { OnOk result (IfSome (slice_get self.old.tasks t) (λ x. self.new ≡ returned self.old t x)) }
        ensures err { OnErr result (self.new ≡ self.old) }
    {
        let task = self.tasks.at(t as usize);
        let parent = task.parent;
        let handed_back = task.top.result();
        if let Some(caller) = self.pop_frame(t) {
            self.come_back(t, caller, handed_back);
            return Ok(());
        }
        match parent {
            Some(parent) => self.end_child(t, parent, handed_back),
            None => {
                self.end_root(t, handed_back);
                Ok(())
            }
        }
    }

    /// The root ends, and with it the run.
    fn end_root(&mut self, t: u32, handed_back: (i64, Option<Name>))
        requires { t < length self.old.tasks }
        ensures { IfSome (slice_get self.old.tasks t) (λ x. self.new ≡ ended_by (with_task self.old t (ended_task x handed_back)) End.Done) }
    {
        self.end_task(t, handed_back);
        self.finish(End::Done);
    }

    /// A child ends, and joins its parent if its sibling has ended.
    fn end_child(
        &mut self,
        t: u32,
        parent: u32,
        handed_back: (i64, Option<Name>),
    ) -> Result<(), AllocError>
        requires made { t < length self.old.tasks }
        requires fits { length self.old.tasks < 2 ^ 32 }
        requires below { parent < t }
        requires below_sibling { parent < sibling t }
        requires joins { IfSome (slice_get self.old.tasks parent) (λ x. x.joins + 1 < 2 ^ 32) }
        ensures ok { OnOk result (IfSome (slice_get self.old.tasks t) (λ x. self.new ≡ child_ended self.old t x parent handed_back)) }
        ensures err { OnErr result (self.new ≡ self.old) }
    {
        let is_left = t % 2 == 1;
        let sibling = if is_left { t + 1 } else { t - 1 };
        let Some(other) = self.result(sibling) else {
            self.end_task(t, handed_back);
            return Ok(());
        };
        if is_left {
            self.join(parent, t, handed_back, other)
        } else {
            self.join(parent, sibling, other, handed_back)
        }
    }

    /// A task ends and keeps its result.
    fn end_task(&mut self, t: u32, handed_back: (i64, Option<Name>))
        requires { t < length self.old.tasks }
        ensures { IfSome (slice_get self.old.tasks t) (λ x. self.new ≡ with_task self.old t (ended_task x handed_back)) }
    {
        self.tasks.at_mut(t as usize).status = TaskStatus::Ended(handed_back.0, handed_back.1);
    }

    /// Two children that have ended join their parent.
    fn join(
        &mut self,
        parent: u32,
        left: u32,
        left_result: (i64, Option<Name>),
        right_result: (i64, Option<Name>),
    ) -> Result<(), AllocError>
        requires below { parent < left }
        requires made { left + 1 < length self.old.tasks }
        requires fits { left + 1 < 2 ^ 32 }
        requires joins { IfSome (slice_get self.old.tasks parent) (λ x. x.joins + 1 < 2 ^ 32) }
        ensures ok { OnOk result (IfSome (slice_get self.old.tasks parent) (λ x. IfSome (slice_get self.old.tasks left) (λ xl. IfSome (slice_get self.old.tasks (left + 1)) (λ xr.
            self.new ≡ join_of self.old parent x left xl xr left_result right_result)))) }
        ensures err { OnErr result (self.new ≡ self.old) }
    {
        let right = left + 1;
        let strand = Strand {
            task: parent,
            joins: self.tasks.at(parent as usize).joins + 1,
        };
        let left_strand = Strand {
            task: left,
            joins: self.tasks.at(left as usize).joins,
        };
        let right_strand = Strand {
            task: right,
            joins: self.tasks.at(right as usize).joins,
        };
        self.edges.push_pair(
            Edge {
                source: left_strand,
                target: strand,
            },
            Edge {
                source: right_strand,
                target: strand,
            },
        )?;
        self.tasks.at_mut(left as usize).status = TaskStatus::Joined;
        self.tasks.at_mut(right as usize).status = TaskStatus::Joined;
        let task = self.tasks.at_mut(parent as usize);
        task.status = TaskStatus::Running;
        task.top.take_result(0, left_result);
        task.top.take_result(1, right_result);
        task.joins += 1;
        Ok(())
    }
}
