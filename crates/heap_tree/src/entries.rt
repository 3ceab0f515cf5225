// The entries of all tasks, stored compactly: those of two children of one fork differ only in their states.

ghost use Rattle.std.specs.Prelude.{◌≡◌, ◌^◌, ◌<◌, ◌++◌, ◌∷◌, [], length, slice_get, slice_set, IfSome, OnErr, OnOk, Some};
ghost use Rattle.heap_tree.specs.Paired.{child_entry, root_entry, with_child};

use crate::links::Linked;
use crate::state::TaskState;
use std::alloc::{AllocError, Global};
use std::marker::Model;

/// Two children of one fork.
#[derive(Clone, Copy)]
pub struct Pair {
    pub parent: u32,
    pub far: u32,
    pub depth: u16,
    pub left: TaskState,
    pub right: TaskState,
}

/// The entries of the root and of the pairs of children.
pub struct Entries {
    root: TaskState,
    pairs: Vec<Pair>,
}

impl Drop for Entries {
    fn drop(self) {
        let Entries { root: _, pairs: _ } = self;
    }
}

impl Model for Entries {
    ghost use Rattle.std.specs.Prelude.{List};
    ghost use Rattle.heap_tree.specs.declared.links.Linked.{Linked};
    ghost use Rattle.heap_tree.specs.Paired.{entries_of};

    ghost Value = { List Linked };

    ghost view = { λ e. entries_of e.root e.pairs.items };
}

// The entry of one of two children.
fn child_entry(pair: Pair, left: bool) -> Linked
    ensures { result ≡ child_entry pair left }
{
    Linked {
        parent: Some(pair.parent),
        depth: pair.depth as u32,
        far: pair.far,
        state: if left { pair.left } else { pair.right },
    }
}

// A pair, if it exists.
fn pair_at(pairs: &Vec<Pair>, at: usize) -> Option<Pair>
    ensures { result ≡ slice_get pairs.now.items at }
{
    match pairs.get(at) {
        Some(pair) => Some(*pair),
        None => None,
    }
}

// Gives one of two children another state.
fn change_child(pairs: &mut Vec<Pair>, at: usize, left: bool, state: TaskState)
    requires { at < length pairs.old.items }
    ensures { IfSome (slice_get pairs.old.items at) (λ p. pairs.new.items ≡ slice_set pairs.old.items at (with_child p left state)) }
{
    let pair = &mut pairs[at];
    if left {
        pair.left = state;
    } else {
        pair.right = state;
    }
}

impl Entries {
    /// The root's entry alone.
    pub fn new(alloc: Global, root: TaskState) -> Entries
        ensures { result ≡ root_entry root ∷ [] }
    {
        Entries {
            root,
            pairs: Vec::new(alloc),
        }
    }

    /// How many there are.
    pub fn len(&self) -> u32
        requires { length self.now < 2 ^ 32 }
        ensures { result ≡ length self.now }
    {
        (1 + 2 * self.pairs.len()) as u32
    }

    /// The entry of a task, if it exists.
    pub fn get(&self, t: usize) -> Option<Linked>
        ensures { result ≡ slice_get self.now t }
    {
        if t == 0 {
            return Some(Linked {
                parent: None,
                depth: 0,
                far: 0,
                state: self.root,
            });
        }
        let child = t - 1;
        match pair_at(&self.pairs, child / 2) {
            Some(pair) => Some(child_entry(pair, child % 2 == 0)),
            None => None,
        }
    }

    /// Gives a task another state.
    pub fn set_state(&mut self, t: u32, state: TaskState)
        requires { t < length self.old }
        ensures { IfSome (slice_get self.old t) (λ e. self.new ≡ slice_set self.old t (record e { state = state })) }
    {
        if t == 0 {
            self.root = state;
            return;
        }
        let child = t - 1;
        change_child(&mut self.pairs, (child / 2) as usize, child % 2 == 0, state);
    }

    /// Adds two children, or none.
    pub fn push_two(&mut self, child: Linked, parent: u32) -> Result<(), AllocError>
        requires parent { child.parent ≡ Some parent }
        requires shallow { child.depth < 2 ^ 16 }
        ensures ok { OnOk result (self.new ≡ self.old ++ child ∷ (child ∷ [])) }
        ensures err { OnErr result (self.new ≡ self.old) }
    {
        self.pairs.push(Pair {
            parent,
            far: child.far,
            depth: child.depth as u16,
            left: child.state,
            right: child.state,
        })?;
        Ok(())
    }
}
