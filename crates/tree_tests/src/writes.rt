// What writes of references into an object of a root with two children record in the sets of the three heaps.

ghost use Rattle.std.specs.Prelude.{IsTrue, length};
ghost use Rattle.write_barrier.specs.Stored.{PointsIntoOwned};

use chunk_pool::Pool;
use heap_tree::Tree;
use join_scenes::has_forked;
use memory_scenes::{add_taken, at, one_frame};
use std::alloc::Global;
use task_slots::{Addr, LeafHeap, ParkedTask, RefField, TaskSlots, View, Work};
use write_barrier::note_write;

// Whether a reference, if it isn't nil, leads into a chunk of a task of the tree.
fn is_owned(tree: &Tree, pool: &Pool, reference: Option<Addr>) -> bool
    ensures { IsTrue result → PointsIntoOwned (length tree.now) pool.now reference }
{
    let Some(to) = reference else {
        return true;
    };
    match pool.slot(to.chunk) {
        None => false,
        Some(held) => held.owner < tree.made(),
    }
}

// Records a write, if the barrier may be called.
fn note_checked(
    tree: &Tree,
    pool: &Pool,
    task_slots: &mut TaskSlots,
    source: RefField,
    overwritten: Option<Addr>,
    value: Option<Addr>,
) -> bool {
    if task_slots.len() < tree.made() as usize || !is_owned(tree, pool, Some(source.object)) {
        return false;
    }
    if !is_owned(tree, pool, overwritten) || !is_owned(tree, pool, value) {
        return false;
    }
    note_write(tree, pool, task_slots, source, overwritten, value).is_ok()
}

// A root that has forked, and what belongs to the three tasks.
#[derive(Drop)]
struct Scene {
    tree: Tree,
    pool: Pool,
    task_slots: TaskSlots,
}

// The address of the object whose field is written.
const OBJECT: Addr = Addr {
    chunk: 0,
    offset: 0,
};

// A root that has forked.
fn family(alloc: Global) -> Option<Tree> {
    let Ok(mut tree) = Tree::new(alloc) else {
        return None;
    };
    let top = one_frame(alloc)?;
    if has_forked(alloc, &mut tree, 0, &top) {
        Some(tree)
    } else {
        None
    }
}

// A task without objects.
fn bare_rest(alloc: Global) -> ParkedTask {
    ParkedTask {
        work: Work::Result(0, None),
        heap: LeafHeap::new(alloc),
        view: View::none(),
        allocations: 0,
    }
}

// What belongs to three such tasks.
fn three_task_slots(alloc: Global) -> Option<TaskSlots> {
    let mut task_slots = TaskSlots::new(alloc, bare_rest(alloc)).ok()?;
    let Ok(()) = task_slots.reserve(2) else {
        return None;
    };
    let left = task_slots.take_block().ok()?;
    let right = task_slots.take_block().ok()?;
    task_slots.push(bare_rest(alloc), left);
    task_slots.push(bare_rest(alloc), right);
    Some(task_slots)
}

// Takes a chunk for a task; returns its number.
fn take_chunk(alloc: Global, pool: &mut Pool, owner: u32) -> Option<u32> {
    let mut heap = LeafHeap::new(alloc);
    add_taken(pool, &mut heap, owner)
}

impl Scene {
    // The root has the chunk 0.
    fn new(alloc: Global) -> Option<Scene> {
        let tree = family(alloc)?;
        let task_slots = three_task_slots(alloc)?;
        let mut pool = Pool::new(alloc, 4);
        match take_chunk(alloc, &mut pool, 0) {
            Some(0) => Some(Scene {
                tree,
                pool,
                task_slots,
            }),
            _ => None,
        }
    }

    // Records the write of one reference over another; returns whether that succeeded.
    fn write(&mut self, overwritten: Option<Addr>, value: Option<Addr>) -> bool {
        let source = RefField {
            object: OBJECT,
            field: 0,
        };
        note_checked(
            &self.tree,
            &self.pool,
            &mut self.task_slots,
            source,
            overwritten,
            value,
        )
    }

    // Sets whether the root's heap keeps overwritten references from now on.
    fn set_keeps(&mut self, keeps: bool) {
        if self.task_slots.keeps(0) != keeps
            && self.task_slots.len() > 0
            && self.task_slots.has_block(0)
        {
            self.task_slots.set_keeps(0, keeps);
        }
    }

    // The numbers of sources and of kept references of the three heaps.
    fn counts(&self) -> [(usize, usize); 3] {
        [self.count(0), self.count(1), self.count(2)]
    }

    fn count(&self, task: u32) -> (usize, usize) {
        (
            self.task_slots.sources(task).len(),
            self.task_slots.kept(task).len(),
        )
    }
}

// The address after eight words of a chunk of the left child.
fn place_below(alloc: Global, pool: &mut Pool) -> Option<Addr> {
    Some(at(take_chunk(alloc, pool, 1)?, 8))
}

// Whether a reference that points down is written twice, and what the sets hold then.
fn points_down(alloc: Global, scene: &mut Scene) -> Option<(bool, bool, [(usize, usize); 3])> {
    let down = place_below(alloc, &mut scene.pool);
    if down.is_none() {
        return None;
    }
    let first = scene.write(None, down);
    let second = scene.write(down, down);
    Some((first, second, scene.counts()))
}

// The same in a new scene.
fn points_down_in_new_scene(alloc: Global) -> Option<(bool, bool, [(usize, usize); 3])> {
    let mut scene = Scene::new(alloc)?;
    points_down(alloc, &mut scene)
}

// The field is recorded once in the set of the child into whose chunk it points.
#[test]
fn a_down_pointer_is_noted_once(rt: HostRuntime) {
    let noted = [(0, 0), (1, 0), (0, 0)];
    assert!(rt; points_down_in_new_scene(rt.alloc()) == Some((true, true, noted)));
}

// Whether the root's heap keeps, what is overwritten, what is written, and the number of references kept then.
type Write = (bool, Option<Addr>, Option<Addr>, usize);

const WRITES: &[Write] = &[
    (false, None, Some(OBJECT), 0),
    (false, Some(OBJECT), Some(OBJECT), 0),
    (true, Some(OBJECT), None, 1),
    (true, None, Some(OBJECT), 1),
];

// Whether a reference is written, and n are kept then, all in the root's set.
fn keeps(scene: &mut Scene, (keeps, overwritten, value, kept): Write) -> bool {
    scene.set_keeps(keeps);
    scene.write(overwritten, value) && scene.counts() == [(0, kept), (0, 0), (0, 0)]
}

// Whether the overwritten reference is kept, in each case in which it should be.
fn keeps_overwritten(scene: &mut Scene) -> bool {
    for &write in WRITES {
        if !keeps(scene, write) {
            return false;
        }
    }
    true
}

// The same in a new scene.
fn keeps_overwritten_in_new_scene(alloc: Global) -> bool {
    match Scene::new(alloc) {
        Some(mut scene) => keeps_overwritten(&mut scene),
        None => false,
    }
}

// If the heap keeps, an overwritten reference into it is kept; nil isn't.
#[test]
fn an_overwritten_reference_is_kept(rt: HostRuntime) {
    assert!(rt; keeps_overwritten_in_new_scene(rt.alloc()));
}
