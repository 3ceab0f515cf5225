// The tree: its tasks by number, forks, and paths.

ghost use Rattle.std.specs.Prelude.{◌≡◌, ◌+◌, ◌-◌, ◌*◌, ◌^◌, ℕ, ◌<◌, ◌≤◌, ◌↔◌, ◌∷◌, [], ◌++◌, length, slice_get, slice_set, IfSome, IfOk, OnOk, OnErr, IsTrue, Some};
ghost use Rattle.hh_model.specs.Step.{depth_limit};
ghost use Rattle.heap_tree.specs.Walk.{ancestor, IsUpFrom};
ghost use Rattle.heap_tree.specs.TaskNode.{root_node, parent_of, state_of, depth_of, node_on_path, with_state, forked, IsTree};

use crate::entries::Entries;
use crate::links::{Linked, entry_at};
use crate::state::TaskState;
use jump_pointers::{LinkCount, climb, climb_to, far_below};
use std::alloc::{AllocError, Global};
use std::marker::Model;
use std::sync::ledger::Ledger;

/// The tasks made so far, each with its parent and its state. The root is task 0.
pub struct Tree {
    entries: Entries,
}

impl Drop for Tree {
    fn drop(self) {
        let Tree { entries: _ } = self;
    }
}

impl Model for Tree {
    ghost use Rattle.std.specs.Prelude.{List, map};
    ghost use Rattle.heap_tree.specs.TaskNode.{TaskNode};
    ghost use Rattle.heap_tree.specs.Links.{node_of, IsLinked};

    ghost Value = { List TaskNode };

    ghost view = { λ t. map node_of t.entries };

    ghost invariant = { λ t. IsLinked t.entries };
}

// Adds two children, and makes the task wait that forks them. If an allocation fails, nothing changes.
fn put_children(entries: &mut Entries, t: u32, child: Linked) -> Result<(), AllocError>
    requires made { t < length entries.old }
    requires parent { child.parent ≡ Some t }
    requires shallow { child.depth < 2 ^ 16 }
    ensures ok { OnOk result (IfSome (slice_get entries.old t) (λ e. entries.new ≡ slice_set entries.old t (record e { state = TaskState.Waiting }) ++ child ∷ (child ∷ []))) }
    ensures err { OnErr result (entries.new ≡ entries.old) }
{
    entries.push_two(child, t)?;
    entries.set_state(t, TaskState::Waiting);
    Ok(())
}

impl Tree {
    /// The root alone, ready.
    pub fn new(alloc: Global) -> Result<Tree, AllocError>
        ensures { IfOk result (λ tree. tree ≡ root_node ∷ []) }
    {
        Ok(Tree {
            entries: Entries::new(alloc, TaskState::Ready),
        })
    }

    /// How many tasks were made. Task numbers are below it.
    pub fn made(&self) -> u32
        ensures count { result ≡ length self.now }
        ensures tree { IsTree self.now }
    {
        self.entries.len()
    }

    /// Makes two children of a task, the left one first, with the next two numbers. They are ready, and the task waits.
    pub fn fork(&mut self, t: u32) -> Result<(u32, u32), AllocError>
        requires out { state_of self.old t ≡ Some TaskState.Out }
        requires shallow { depth_of self.old t < depth_limit }
        requires few { length self.old < 2 ^ 31 }
        ensures numbers { IfOk result (λ pair. (pair.0 ≡ length self.old) × (pair.1 ≡ length self.old + 1)) }
        ensures ok { OnOk result (self.new ≡ forked self.old t) }
        ensures err { OnErr result (self.new ≡ self.old) }
    {
        let left = self.entries.len();
        let child = Linked {
            parent: Some(t),
            depth: entry_at(&self.entries, t as usize).depth + 1,
            far: far_below(&self.entries, t as usize) as u32,
            state: TaskState::Ready,
        };
        put_children(&mut self.entries, t, child)?;
        Ok((left, left + 1))
    }

    /// Gives a task another state.
    pub fn set_state(&mut self, t: u32, state: TaskState)
        requires { t < length self.old }
        ensures { self.new ≡ with_state self.old t state }
    {
        self.entries.set_state(t, state);
    }

    /// The state of a task; None if there is no task of this number.
    pub fn state(&self, t: u32) -> Option<TaskState>
        ensures { result ≡ state_of self.now t }
    {
        let entry = self.entries.get(t as usize)?;
        Some(entry.state)
    }

    /// The parent of a task; None for the root, and if there is no task of this number.
    pub fn parent(&self, t: u32) -> Option<u32>
        ensures { result ≡ parent_of self.now t }
    {
        let entry = self.entries.get(t as usize)?;
        entry.parent
    }

    /// How many links lead from a task to the root.
    pub fn depth(&self, t: u32) -> u32
        requires { t < length self.now }
        ensures { result ≡ depth_of self.now t }
    {
        entry_at(&self.entries, t as usize).depth
    }

    /// The task at a depth on the path from `t` to the root. It follows the links that `path_counted` counts.
    pub fn path(&self, t: u32, at_depth: u32) -> u32
        requires made { t < length self.now }
        requires within { at_depth ≤ depth_of self.now t }
        ensures up { ancestor (parent_of self.now) (depth_of self.now t - at_depth) t ≡ Some result }
        ensures there { depth_of self.now result ≡ at_depth }
        ensures made { result < length self.now }
    {
        climb_to(&self.entries, t as usize, at_depth as usize) as u32
    }

    /// `path`, counting the links that it follows: at most 3 ⌊log₂(d + 1)⌋, d being the depth of `t`.
    pub fn path_counted<L: Ledger>(&self, t: u32, at_depth: u32, links: &mut LinkCount<L>) -> u32
        requires made { t < length self.now }
        requires within { at_depth ≤ depth_of self.now t }
        ensures up { ancestor (parent_of self.now) (depth_of self.now t - at_depth) t ≡ Some result }
        ensures there { depth_of self.now result ≡ at_depth }
        ensures made { result < length self.now }
        ensures counted { links.old ≤ links.new }
        ensures cost { (log : ℕ) → depth_of self.now t + 1 < 2 ^ (log + 1) → links.new ≤ links.old + 3 * log }
    {
        climb(&self.entries, t as usize, at_depth as usize, links) as u32
    }

    /// Whether `owner` is `reader` or an ancestor of it. It follows the links that `on_path_counted` counts.
    pub fn on_path(&self, reader: u32, owner: u32) -> bool
        requires reader { reader < length self.now }
        requires owner { owner < length self.now }
        ensures value { result ≡ node_on_path self.now owner reader }
        ensures walk { IsTrue result ↔ IsUpFrom (parent_of self.now) reader owner }
    {
        let depth = entry_at(&self.entries, owner as usize).depth;
        depth <= entry_at(&self.entries, reader as usize).depth
            && climb_to(&self.entries, reader as usize, depth as usize) == owner as usize
    }

    /// `on_path`, counting the links that it follows: at most 3 ⌊log₂(d + 1)⌋, d being the reader's depth.
    pub fn on_path_counted<L: Ledger>(
        &self,
        reader: u32,
        owner: u32,
        links: &mut LinkCount<L>,
    ) -> bool
        requires reader { reader < length self.now }
        requires owner { owner < length self.now }
        ensures value { result ≡ node_on_path self.now owner reader }
        ensures walk { IsTrue result ↔ IsUpFrom (parent_of self.now) reader owner }
        ensures counted { links.old ≤ links.new }
        ensures cost { (log : ℕ) → depth_of self.now reader + 1 < 2 ^ (log + 1) → links.new ≤ links.old + 3 * log }
    {
        let depth = entry_at(&self.entries, owner as usize).depth;
        depth <= entry_at(&self.entries, reader as usize).depth
            && climb(&self.entries, reader as usize, depth as usize, links) == owner as usize
    }
}
