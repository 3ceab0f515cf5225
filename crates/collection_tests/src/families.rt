// Families: a root and its descendants, where the right child of each fork may fork again.

use fork_join::{Child, EndedChild, Side};
use heap_tree::{TaskState, Tree};
use join_scenes::{ended, forked, joined};
use memory_scenes::{Addr, Chunk, Frames, LeafHeap, Pool, add_taken, at, owner, place};
use remembered_set::{RefField, Remembered};
use std::alloc::Global;

/// What a child returns.
pub type Outcome = (i64, Option<Addr>);

/// A field of the object at offset 8 of a chunk: the chunk's number, and the field's.
pub type Field = (u32, u32);

/// The tasks that haven't been joined, in order of their numbers.
#[derive(Drop)]
pub struct Family {
    alloc: Global,
    tree: Tree,
    pool: Pool,
    sides: Vec<Side>,
}

/// Records these fields in a set; returns whether that succeeded.
pub fn note_all(set: &mut Remembered, fields: &[Field]) -> bool {
    for &(chunk, field) in fields {
        if set.note(at(chunk, 8), field).is_err() {
            return false;
        }
    }
    true
}

// The field of the object at offset 8 of a chunk.
fn source((chunk, field): Field) -> RefField {
    RefField {
        object: at(chunk, 8),
        field,
    }
}

/// Whether the sources are these fields.
pub fn are_sources(sources: &[RefField], fields: &[Field]) -> bool {
    for (i, &field) in fields.iter().enumerate() {
        if sources.get(i).copied() != Some(source(field)) {
            return false;
        }
    }
    sources.len() == fields.len()
}

fn side(alloc: Global, task: u32, heap: LeafHeap) -> Side {
    Side {
        task,
        heap,
        remembered: Remembered::new(alloc),
    }
}

fn child_side(alloc: Global, child: Child) -> Side {
    side(alloc, child.task, child.heap)
}

// Only the root's side.
fn root_side(alloc: Global) -> Option<Vec<Side>> {
    let mut sides = Vec::new(alloc);
    if sides.reserve(1).is_err() {
        return None;
    }
    sides.push_reserved(side(alloc, 0, LeafHeap::new(alloc)));
    Some(sides)
}

// Adds the sides of two children; returns whether that succeeded.
fn add_sides(alloc: Global, sides: &mut Vec<Side>, left: Child, right: Child) -> bool {
    let Ok(()) = sides.reserve(2) else {
        return false;
    };
    sides.push_reserved(child_side(alloc, left));
    sides.push_reserved(child_side(alloc, right));
    true
}

// A child ends: what it leaves.
fn ended_child(tree: &mut Tree, sides: &mut Vec<Side>, answer: Outcome) -> Option<EndedChild> {
    let side = sides.pop()?;
    ended(tree, side.task)?;
    Some(EndedChild {
        side,
        result: answer,
    })
}

// A chunk's number, and its owner by the pool.
fn owned(pool: &Pool, chunk: &Chunk) -> (u32, Option<u32>) {
    let number = chunk.number();
    (number, owner(pool, number))
}

// Each change returns whether it was made.
impl Family {
    /// A root without chunks.
    pub fn new(alloc: Global) -> Option<Family> {
        let Ok(tree) = Tree::new(alloc) else {
            return None;
        };
        Some(Family {
            alloc,
            tree,
            pool: Pool::new(alloc, 100),
            sides: root_side(alloc)?,
        })
    }

    /// The last task forks.
    pub fn fork(&mut self, top: &Frames) -> bool {
        let Some(last) = self.sides.last() else {
            return false;
        };
        match forked(self.alloc, &mut self.tree, last.task, &last.heap, None, top) {
            Some((left, right)) => add_sides(self.alloc, &mut self.sides, left, right),
            None => false,
        }
    }

    /// A task gets a chunk.
    pub fn add_chunk(&mut self, t: usize) -> bool {
        match self.sides.get_mut(t) {
            Some(side) => add_taken(&mut self.pool, &mut side.heap, side.task).is_some(),
            None => false,
        }
    }

    /// A task places an object of n words.
    pub fn place(&mut self, t: usize, words: u32) -> bool {
        match self.sides.get_mut(t) {
            Some(side) => place(&mut side.heap, 0, words.saturating_sub(2), 0),
            None => false,
        }
    }

    /// Records fields that point down into the heap of a task.
    pub fn note(&mut self, t: usize, fields: &[Field]) -> bool {
        match self.sides.get_mut(t) {
            Some(side) => note_all(&mut side.remembered, fields),
            None => false,
        }
    }

    /// The last two tasks end, and are joined with their parent, which gets their results.
    pub fn join(&mut self, frames: &mut Frames, left: Outcome, right: Outcome) -> bool {
        let Some(right) = ended_child(&mut self.tree, &mut self.sides, right) else {
            return false;
        };
        let Some(left) = ended_child(&mut self.tree, &mut self.sides, left) else {
            return false;
        };
        match self.sides.last_mut() {
            Some(parent) => joined(&mut self.tree, &mut self.pool, parent, frames, left, right),
            None => false,
        }
    }

    /// Whether exactly these fields are recorded for a task, in this order.
    pub fn has_noted(&self, t: usize, fields: &[Field]) -> bool {
        match self.sides.get(t) {
            Some(side) => are_sources(side.remembered.sources(), fields),
            None => false,
        }
    }

    /// The words that a task placed, those that it holds, and those left in its chunk.
    pub fn words(&self, t: usize) -> Option<(u64, u64, u32)> {
        let heap = &self.sides.get(t)?.heap;
        Some((heap.since(), heap.words(), heap.room()))
    }

    /// The numbers of the root's chunks, if it has three, and the owner of each by the pool.
    pub fn chunks(&self) -> Option<[(u32, Option<u32>); 3]> {
        let root = self.sides.first()?;
        match root.heap.chunks() {
            [first, second, third] => Some([
                owned(&self.pool, first),
                owned(&self.pool, second),
                owned(&self.pool, third),
            ]),
            _ => None,
        }
    }

    /// The state of a task.
    pub fn state(&self, t: u32) -> Option<TaskState> {
        self.tree.state(t)
    }
}
