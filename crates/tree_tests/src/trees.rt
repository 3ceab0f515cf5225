// Trees of heaps that fork and join, a path of 1,000 links, and reads on and off the path.

ghost use Rattle.std.specs.Prelude.{◌≡◌, ◌<◌, IfSome};
ghost use Rattle.heap_tree.specs.TaskNode.{depth_of};

use chunk_pool::Pool;
use heap_tree::{LinkCount, TaskState, Tree};
use memory_scenes::{DEPTH_LIMIT, relabel, take};
use read_barrier::{Stop, check};
use std::alloc::Global;
use std::marker::Brand;
use std::sync::ledger::{Blank, Ledger};
use task_slots::Addr;

// Forks a task; returns its children's numbers.
fn forked(tree: &mut Tree, t: u32) -> Option<(u32, u32)> {
    if t >= tree.made() || tree.made() >= 100000 || tree.depth(t) >= DEPTH_LIMIT {
        return None;
    }
    tree.set_state(t, TaskState::Out);
    if tree.state(t) != Some(TaskState::Out) {
        return None;
    }
    tree.fork(t).ok()
}

fn path(tree: &Tree, t: u32, depth: u32) -> Option<u32> {
    if t < tree.made() && depth <= tree.depth(t) {
        Some(tree.path(t, depth))
    } else {
        None
    }
}

fn on_path(tree: &Tree, reader: u32, owner: u32) -> Option<bool> {
    if reader < tree.made() && owner < tree.made() {
        Some(tree.on_path(reader, owner))
    } else {
        None
    }
}

// With a count of the links, under a fresh brand.
fn path_counted<L: Ledger>(tree: &Tree, t: u32, depth: u32, blank: Blank) -> Option<u32>
    requires name { blank.name ≡ L.name }
    requires parts { blank.parts ≡ L.parts }
    requires some { 0 < blank.parts }
    ensures { IfSome result (λ r. depth_of tree.now r ≡ depth) }
{
    if t >= tree.made() || depth > tree.depth(t) {
        return None;
    }
    let mut links = LinkCount::<L>::new(blank);
    Some(tree.path_counted(t, depth, &mut links))
}

// The number of tasks of a new tree, the root's state, its parent, and whether it is on its own path.
type First = (u32, Option<TaskState>, Option<u32>, Option<bool>);

fn first(tree: &Tree) -> First {
    (
        tree.made(),
        tree.state(0),
        tree.parent(0),
        on_path(tree, 0, 0),
    )
}

// The states of three tasks, and the parent of task 2.
type States = ([Option<TaskState>; 3], Option<u32>);

fn states(tree: &Tree) -> States {
    (
        [tree.state(0), tree.state(2), tree.state(3)],
        tree.parent(2),
    )
}

// The facts of a new tree, the numbers of the root's children after a fork, and the facts then.
fn one_fork(alloc: Global) -> Option<(First, (u32, u32), States)> {
    let Ok(mut tree) = Tree::new(alloc) else {
        return None;
    };
    let first = first(&tree);
    let children = forked(&mut tree, 0)?;
    Some((first, children, states(&tree)))
}

#[test]
fn forks(rt: HostRuntime) {
    let first = (1, Some(TaskState::Ready), None, Some(true));
    let states = [Some(TaskState::Waiting), Some(TaskState::Ready), None];
    assert!(rt; one_fork(rt.alloc()) == Some((first, (1, 2), (states, Some(0)))));
}

// The root has the children 1 and 2, and one of these has 3 and 4.
fn three_levels(alloc: Global, second: u32) -> Option<Tree> {
    let Ok(mut tree) = Tree::new(alloc) else {
        return None;
    };
    forked(&mut tree, 0)?;
    forked(&mut tree, second)?;
    Some(tree)
}

// The parent of task 4, whether 0, 2 and 3 are on its path, and whether it is on the root's.
fn paths_of(alloc: Global) -> Option<(Option<u32>, [Option<bool>; 4])> {
    let tree = three_levels(alloc, 1)?;
    let [root, other, beside] = [
        on_path(&tree, 4, 0),
        on_path(&tree, 4, 2),
        on_path(&tree, 4, 3),
    ];
    Some((tree.parent(4), [root, other, beside, on_path(&tree, 0, 4)]))
}

#[test]
fn paths(rt: HostRuntime) {
    let are = [Some(true), Some(false), Some(false), Some(false)];
    assert!(rt; paths_of(rt.alloc()) == Some((Some(1), are)));
}

// The task at depth 1 above task 4, with a count of the links.
fn links_counted(alloc: Global) -> Option<u32> {
    let tree = three_levels(alloc, 2)?;
    path_counted::<Brand>(&tree, 4, 1, Blank::new(1))
}

#[test]
fn links_are_counted(rt: HostRuntime) {
    assert!(rt; links_counted(rt.alloc()) == Some(2));
}

// The left child of each fork forks, down to a depth: the number of the last one.
fn fork_down(tree: &mut Tree, levels: u32) -> Option<u32> {
    let mut last = 0;
    for _ in 0..levels {
        last = forked(tree, last)?.0;
    }
    Some(last)
}

// Whether the left child at a depth is the ancestor of a task there, and on its path, and the right child isn't.
fn is_above(tree: &Tree, t: u32, depth: u32) -> bool
    requires least { 0 < depth }
    requires most { depth < 1000 }
{
    path(tree, t, depth) == Some(2 * depth - 1)
        && on_path(tree, t, 2 * depth - 1) == Some(true)
        && on_path(tree, t, 2 * depth) == Some(false)
}

// Whether it is so at each depth.
fn are_above(tree: &Tree, t: u32) -> bool {
    for depth in 1..1000 {
        if !is_above(tree, t, depth) {
            return false;
        }
    }
    true
}

// The number of the task at depth 1,000, its ancestor at depth 0, and whether those between are the expected ones.
fn deep(alloc: Global) -> Option<(u32, Option<u32>, bool)> {
    let Ok(mut tree) = Tree::new(alloc) else {
        return None;
    };
    let last = fork_down(&mut tree, 1000)?;
    Some((last, path(&tree, last, 0), are_above(&tree, last)))
}

// Down to a depth of 1,000 task 2d - 1 is the one at depth d.
#[test]
fn a_thousand_deep(rt: HostRuntime) {
    assert!(rt; deep(rt.alloc()) == Some((1999, Some(0), true)));
}

// What a reader gets for an address, if its chunk belongs to a task of the tree.
fn read(tree: &Tree, pool: &Pool, reader: u32, to: Addr) -> Option<Result<Addr, Stop>> {
    let held = pool.slot(to.chunk)?;
    if reader >= tree.made() || held.owner >= tree.made() {
        return None;
    }
    Some(check(tree, pool, reader, to))
}

// What four tasks read: the root, task 1, its sibling and its child.
type Reads = [Option<Result<Addr, Stop>>; 4];

fn reads(tree: &Tree, pool: &Pool, to: Addr) -> Reads {
    let [root, own] = [read(tree, pool, 0, to), read(tree, pool, 1, to)];
    [root, own, read(tree, pool, 2, to), read(tree, pool, 4, to)]
}

// What they read of a chunk that is task 1's, with its number, and then of the root's.
fn reads_of(tree: &Tree, pool: &mut Pool) -> (Option<u32>, Reads, Reads) {
    let number = take(pool, 1, 1);
    let before = reads(tree, pool, THERE);
    relabel(pool, 0, 0);
    (number, before, reads(tree, pool, THERE))
}

fn all_reads(alloc: Global) -> Option<(Option<u32>, Reads, Reads)> {
    let tree = three_levels(alloc, 1)?;
    let mut pool = Pool::new(alloc, 4);
    Some(reads_of(&tree, &mut pool))
}

const THERE: Addr = Addr {
    chunk: 0,
    offset: 0,
};

const ALLOWED: Option<Result<Addr, Stop>> = Some(Ok(THERE));

fn stopped(reader: u32) -> Option<Result<Addr, Stop>> {
    Some(Err(Stop { reader, owner: 1 }))
}

// Task 1 and those below it read an object of task 1, and all read one of the root.
#[test]
fn reads_across_three_levels(rt: HostRuntime) {
    let before = [stopped(0), ALLOWED, stopped(2), ALLOWED];
    let expected = (Some(0), before, [ALLOWED; 4]);
    assert!(rt; all_reads(rt.alloc()) == Some(expected));
}
