// What the tree stores of each task, and its links.

ghost use Rattle.std.specs.Prelude.{◌≡◌, ◌<◌, length, slice_get, Some};
ghost use Rattle.heap_tree.specs.Links.{parent_at, depth_at, far_at};

use crate::entries::Entries;
use crate::state::TaskState;
use jump_pointers::{FarLinks, Link};

/// A task in the tree: beside the link to its parent it has one to a farther ancestor.
#[derive(Clone, Copy)]
pub struct Linked {
    pub parent: Option<u32>,
    pub depth: u32,
    pub far: u32,
    pub state: TaskState,
}

/// The entry of a task.
pub fn entry_at(entries: &Entries, t: usize) -> Linked
    requires { t < length entries.now }
    ensures { slice_get entries.now t ≡ Some result }
{
    match entries.get(t) {
        Some(entry) => entry,
        None => unreachable!(),
    }
}

// A task as a place.
fn place_of(parent: Option<u32>) -> Option<usize>
    ensures { result ≡ parent }
{
    match parent {
        Some(parent) => Some(parent as usize),
        None => None,
    }
}

// The links of a task.
fn link_of(entries: &Entries, t: usize) -> Link
    requires { t < length entries.now }
    ensures parent { result.parent ≡ parent_at entries.now t }
    ensures depth { result.depth ≡ depth_at entries.now t }
    ensures far { result.far ≡ far_at entries.now t }
{
    let entry = entry_at(entries, t);
    Link {
        depth: entry.depth as usize,
        parent: place_of(entry.parent),
        far: entry.far as usize,
    }
}

impl FarLinks for Entries {
    ghost use Rattle.std.specs.Prelude.{length};
    ghost use Rattle.heap_tree.specs.Links.{parent_at, depth_at, far_at};

    ghost places = { λ entries. length entries };

    ghost parent_at = { parent_at };

    ghost depth_at = { depth_at };

    ghost far_at = { far_at };

    fn link(&self, place: usize) -> Link {
        link_of(self, place)
    }
}
