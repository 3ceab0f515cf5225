// Forks: each function allocates all its memory before its first change.

ghost use Rattle.std.specs.Prelude.{◌≡◌, ◌<◌, ◌+◌, ◌^◌, ◌++◌, ◌∷◌, [], length, slice_get, IfSome, OnOk, OnErr};
ghost use Rattle.hh_model.specs.Step.{with_task, forked, child, edge, strand};

use crate::data::{Edge, End, Frame, MachineState, Strand, Task, TaskStatus, Trap};
use hh_lang::{DEPTH_LIMIT, Listed};
use std::alloc::{AllocError, Global};

impl MachineState {
    /// A task forks.
    #[tactic(auto, using(crate::proofs::Lists::set_front, hh_lang::proofs::below::plain_vec::got_front))]
    pub(crate) fn fork(
        &mut self,
        alloc: Global,
        t: u32,
        left: u32,
        right: u32,
        line: u32,
    ) -> Result<(), AllocError>
        requires made { t < length self.old.tasks }
        requires rows { length self.old.store ≡ length self.old.tasks }
        requires count { length self.old.tasks + 1 < 2 ^ 32 }
        requires next { IfSome (slice_get self.old.tasks t) (λ x. x.top.next + 1 < 2 ^ 32) }
        ensures ok { OnOk result (IfSome (slice_get self.old.tasks t) (λ x. self.new ≡ forked self.old t x left right line)) }
        ensures err { OnErr result (self.new ≡ self.old) }
    {
        let task = self.tasks.at(t as usize);
        if task.depth >= DEPTH_LIMIT {
            self.finish(End::Trapped(Trap::Depth, t, line));
            return Ok(());
        }
        let strand = Strand {
            task: t,
            joins: task.joins,
        };
        let mut top = task.top;
        let children = (
            child(alloc, t, task.depth + 1, left, top),
            child(alloc, t, task.depth + 1, right, top),
        );
        top.advance();
        self.add_children(alloc, strand, children.0, children.1)?;
        self.wait(t, top);
        Ok(())
    }

    /// Adds two tasks with their rows of objects, and the edges to them.
    fn add_children(
        &mut self,
        alloc: Global,
        parent: Strand,
        left: Task,
        right: Task,
    ) -> Result<(), AllocError>
        requires rows { length self.old.store ≡ length self.old.tasks }
        requires count { length self.old.tasks + 1 < 2 ^ 32 }
        ensures ok { OnOk result (self.new ≡ record self.old {
          tasks = self.old.tasks ++ left ∷ right ∷ [];
          store = self.old.store ++ [] ∷ [] ∷ [];
          edges = self.old.edges ++ edge parent (strand (length self.old.tasks) 0) ∷ edge parent (strand (length self.old.tasks + 1) 0) ∷ [];
        }) }
        ensures err { OnErr result (self.new ≡ self.old) }
    {
        let made = self.tasks.len();
        let edges = self.edges.len();
        let left_strand = Strand {
            task: made as u32,
            joins: 0,
        };
        let right_strand = Strand {
            task: made as u32 + 1,
            joins: 0,
        };
        self.edges.push_pair(
            Edge {
                source: parent,
                target: left_strand,
            },
            Edge {
                source: parent,
                target: right_strand,
            },
        )?;
        if let Err(error) = self.store.push_pair(Listed::new(alloc), Listed::new(alloc)) {
            self.edges.truncate(edges);
            return Err(error);
        }
        if let Err(error) = self.tasks.push_pair(left, right) {
            self.edges.truncate(edges);
            self.store.truncate(made);
            return Err(error);
        }
        Ok(())
    }

    /// A task waits for its children.
    fn wait(&mut self, t: u32, top: Frame)
        requires { t < length self.old.tasks }
        ensures { IfSome (slice_get self.old.tasks t) (λ x. self.new ≡ with_task self.old t (record x { status = TaskStatus.Waiting; top = top })) }
    {
        let task = self.tasks.at_mut(t as usize);
        task.status = TaskStatus::Waiting;
        task.top = top;
    }
}

/// A child with this many forks above it and one frame.
fn child(alloc: Global, parent: u32, depth: u32, function: u32, top: Frame) -> Task
    ensures { result ≡ child parent depth function top }
{
    Task {
        parent: Some(parent),
        depth,
        status: TaskStatus::Running,
        top: top.entry(function),
        below: Listed::new(alloc),
        joins: 0,
    }
}
