// Forks and joins that were checked.

ghost use Rattle.std.specs.Prelude.{◌++◌, IsTrue};
ghost use Rattle.leaf_heap.specs.LeafHeapValue.{merged};
ghost use Rattle.object_layout.specs.Chunks.{HaveDistinctNumbers};
ghost use Rattle.fork_join.specs.Joined.{AreInUse, HasCapacityForBoth, HaveEnded};

use chunk_pool::Pool;
use fork_join::{Child, EndedChild, Side, finish, fork, join, make_room};
use heap_tree::{TaskState, Tree};
use leaf_heap::{LeafHeap, View};
use memory_scenes::{DEPTH_LIMIT, is_fresh};
use object_layout::Chunk;
use std::alloc::Global;
use task_frames::Frames;

// Whether the two are the left and the right child of one fork of the parent, and have ended while it waits.
fn have_ended(tree: &Tree, parent: u32, left: u32, right: u32) -> bool
    ensures { IsTrue result → HaveEnded tree.now parent left right }
{
    if tree.state(parent) != Some(TaskState::Waiting) {
        return false;
    }
    if tree.state(left) != Some(TaskState::Ended) {
        return false;
    }
    if tree.state(right) != Some(TaskState::Ended) {
        return false;
    }
    if tree.parent(left) != Some(parent) {
        return false;
    }
    left % 2 == 1 && right > left && right - left == 1
}

// Whether the numbers of these chunks are in use.
fn are_in_use(pool: &Pool, chunks: &[Chunk]) -> bool
    ensures { IsTrue result → AreInUse pool.now chunks.now }
{
    match chunks.split_first() {
        None => true,
        Some((first, rest)) => pool.slot(first.number()).is_some() && are_in_use(pool, rest),
    }
}

// Whether none of these chunks has the number of another of them, or of one after them.
#[tactic(auto, using(mark_sweep_gc::proofs::Giving::fresh_both))]
fn are_apart(chunks: &[Chunk], behind: &[Chunk]) -> bool
    requires { HaveDistinctNumbers behind.now }
    ensures { IsTrue result → HaveDistinctNumbers (chunks.now ++ behind.now) }
{
    match chunks.split_first() {
        None => true,
        Some((first, rest)) => {
            is_fresh(rest, first.number())
                && is_fresh(behind, first.number())
                && are_apart(rest, behind)
        }
    }
}

// The same for two lists, concatenated.
#[tactic(auto, using(mark_sweep_gc::proofs::Giving::fresh_both))]
fn are_all_apart(left: &[Chunk], right: &[Chunk], behind: &[Chunk]) -> bool
    requires { HaveDistinctNumbers behind.now }
    ensures { IsTrue result → HaveDistinctNumbers (left.now ++ (right.now ++ behind.now)) }
{
    match left.split_first() {
        None => are_apart(right, behind),
        Some((first, rest)) => {
            is_fresh(rest, first.number())
                && is_fresh(right, first.number())
                && is_fresh(behind, first.number())
                && are_all_apart(rest, right, behind)
        }
    }
}

/// A worker takes a task with this heap, and it forks, if it may: its children begin the functions 5 and 6.
pub fn forked(
    alloc: Global,
    tree: &mut Tree,
    t: u32,
    heap: &LeafHeap,
    above: Option<&View>,
    top: &Frames,
) -> Option<(Child, Child)> {
    if t >= tree.made() || tree.made() >= 100000 || tree.depth(t) >= DEPTH_LIMIT {
        return None;
    }
    tree.set_state(t, TaskState::Out);
    if tree.state(t) != Some(TaskState::Out) {
        return None;
    }
    let view = heap.view(above).ok()?;
    fork(alloc, tree, t, view, top, 5, 6).ok()
}

/// Whether a task without chunks forks. Its children are dropped.
pub fn has_forked(alloc: Global, tree: &mut Tree, t: u32, top: &Frames) -> bool {
    forked(alloc, tree, t, &LeafHeap::new(alloc), None, top).is_some()
}

/// A worker takes a child, and it ends: returns the parent that continues; None if it isn't a child.
pub fn ended(tree: &mut Tree, t: u32) -> Option<Option<u32>> {
    if t == 0 || t >= tree.made() {
        return None;
    }
    tree.set_state(t, TaskState::Out);
    if tree.state(t) != Some(TaskState::Out) {
        return None;
    }
    Some(finish(tree, t))
}

// Reserves capacity for a join; returns whether two children may be joined with their parent.
fn prepare(tree: &Tree, pool: &Pool, parent: &mut Side, left: &Side, right: &Side) -> bool
    ensures room { IsTrue result → HasCapacityForBoth parent.new left.now right.now }
    ensures ended { IsTrue result → HaveEnded tree.now parent.new.task left.now.task right.now.task }
    ensures left_in_use { IsTrue result → AreInUse pool.now left.now.heap.chunks }
    ensures right_in_use { IsTrue result → AreInUse pool.now right.now.heap.chunks }
    ensures apart { IsTrue result → HaveDistinctNumbers (merged parent.new.heap left.now.heap right.now.heap).chunks }
{
    let Ok(()) = make_room(parent, left, right) else {
        return false;
    };
    have_ended(tree, parent.task, left.task, right.task)
        && are_in_use(pool, left.heap.chunks())
        && are_in_use(pool, right.heap.chunks())
        && are_all_apart(
            left.heap.chunks(),
            right.heap.chunks(),
            parent.heap.chunks(),
        )
}

/// Joins two children with their parent, if they may be; returns whether that succeeded.
pub fn joined(
    tree: &mut Tree,
    pool: &mut Pool,
    parent: &mut Side,
    frames: &mut Frames,
    left: EndedChild,
    right: EndedChild,
) -> bool {
    if !prepare(tree, pool, parent, &left.side, &right.side) {
        return false;
    }
    join(tree, pool, parent, frames, left, right);
    true
}
