// The test at a read.

ghost use Rattle.std.specs.Prelude.{◌≡◌, ℕ, ◌+◌, ◌*◌, ◌^◌, ◌<◌, ◌≤◌, ◌↔◌, length, Some, IsSome, IsOk};
ghost use Rattle.heap_tree.specs.Walk.{IsUpFrom};
ghost use Rattle.heap_tree.specs.TaskNode.{parent_of, depth_of};
ghost use Rattle.chunk_pool.specs.PoolValue.{slot_at, owner_of};
ghost use Rattle.read_barrier.specs.Checked.{checked_read};

use chunk_pool::Pool;
use heap_tree::{LinkCount, Tree};
use object_layout::Addr;
use std::marker::Brand;
use std::sync::ledger::{Blank, Ledger};

/// A read of an object that a concurrent task may have made: the reader, and the task that owns the
/// object's chunk now.
#[derive(Clone, Copy, PartialEq, Eq)]
pub struct Stop {
    pub reader: u32,
    pub owner: u32,
}

/// Lets a read yield an address, or stops it: it is stopped if and only if the owner of the chunk is neither the reader
/// nor an ancestor.
///
/// It follows the links that `check_counted` counts.
pub fn check(tree: &Tree, pool: &Pool, reader: u32, to: Addr) -> Result<Addr, Stop>
    requires reader { reader < length tree.now }
    requires used { IsSome (slot_at pool.now to.chunk) }
    requires owner { (o : ℕ) → owner_of pool.now to.chunk ≡ Some o → o < length tree.now }
    ensures value { (o : ℕ) → owner_of pool.now to.chunk ≡ Some o → result ≡ checked_read tree.now reader o to }
    ensures walk { (o : ℕ) → owner_of pool.now to.chunk ≡ Some o → (IsOk result ↔ IsUpFrom (parent_of tree.now) reader o) }
{
    check_from::<Brand>(tree, pool, reader, to, Blank::new(1))
}

/// `check`, counting the links of the tree that it follows: at most 3 ⌊log₂(d + 1)⌋, d being the reader's depth.
pub fn check_counted<L: Ledger>(
    tree: &Tree,
    pool: &Pool,
    reader: u32,
    to: Addr,
    links: &mut LinkCount<L>,
) -> Result<Addr, Stop>
    requires reader { reader < length tree.now }
    requires used { IsSome (slot_at pool.now to.chunk) }
    requires owner { (o : ℕ) → owner_of pool.now to.chunk ≡ Some o → o < length tree.now }
    ensures value { (o : ℕ) → owner_of pool.now to.chunk ≡ Some o → result ≡ checked_read tree.now reader o to }
    ensures walk { (o : ℕ) → owner_of pool.now to.chunk ≡ Some o → (IsOk result ↔ IsUpFrom (parent_of tree.now) reader o) }
    ensures counted { links.old ≤ links.new }
    ensures cost { (log : ℕ) → depth_of tree.now reader + 1 < 2 ^ (log + 1) → links.new ≤ links.old + 3 * log }
{
    let owner = pool.owner(to.chunk);
    if tree.on_path_counted(reader, owner, links) {
        Ok(to)
    } else {
        Err(Stop { reader, owner })
    }
}

// `check_counted` with a new count, which is dropped.
fn check_from<L: Ledger>(
    tree: &Tree,
    pool: &Pool,
    reader: u32,
    to: Addr,
    blank: Blank,
) -> Result<Addr, Stop>
    requires name { blank.name ≡ L.name }
    requires parts { blank.parts ≡ L.parts }
    requires some { 0 < blank.parts }
    requires reader { reader < length tree.now }
    requires used { IsSome (slot_at pool.now to.chunk) }
    requires owner { (o : ℕ) → owner_of pool.now to.chunk ≡ Some o → o < length tree.now }
    ensures value { (o : ℕ) → owner_of pool.now to.chunk ≡ Some o → result ≡ checked_read tree.now reader o to }
    ensures walk { (o : ℕ) → owner_of pool.now to.chunk ≡ Some o → (IsOk result ↔ IsUpFrom (parent_of tree.now) reader o) }
{
    let mut links = LinkCount::<L>::new(blank);
    check_counted(tree, pool, reader, to, &mut links)
}
