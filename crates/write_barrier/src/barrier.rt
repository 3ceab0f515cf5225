// The work before a reference is written.

ghost use Rattle.std.specs.Prelude.{◌≡◌, ℕ, ◌<◌, ◌≤◌, IfSome, IsSome, OnErr, OnOk, Some, length, option_map};
ghost use Rattle.chunk_pool.specs.PoolValue.{slot_at};
ghost use Rattle.write_barrier.specs.Stored.{content_after, heap_of, noted_in, PointsIntoOwned};

use crate::holder::HoldsSets;
use crate::noting::{keep, note, reserve_kept};
use chunk_pool::Pool;
use heap_tree::Tree;
use object_layout::Addr;
use remembered_set::RefField;
use std::alloc::AllocError;

#[tactic(auto, using(crate::proofs::Owned::owned_used, crate::proofs::Owned::owned_made))]
// The heap that a reference points into; None for nil.
fn heap_of(pool: &Pool, reference: Option<Addr>) -> Option<u32>
    requires { IfSome reference (λ a. IsSome (slot_at pool.now a.chunk)) }
    ensures heap { result ≡ heap_of pool.now reference }
    ensures made { (made : ℕ) → PointsIntoOwned made pool.now reference → IfSome result (λ h. h < made) }
{
    match reference {
        None => None,
        Some(to) => Some(pool.owner(to.chunk)),
    }
}

#[tactic(auto, using(crate::proofs::Owned::owned_used, crate::proofs::Owned::owned_made))]
// The heap in whose set a reference that is written into an object is noted: the one into which it points, if it points
// down.
fn noted_in(tree: &Tree, pool: &Pool, object: Addr, value: Option<Addr>) -> Option<u32>
    requires object { PointsIntoOwned (length tree.now) pool.now (Some object) }
    requires value { PointsIntoOwned (length tree.now) pool.now value }
    ensures heap { result ≡ noted_in tree.now pool.now object value }
    ensures made { IfSome result (λ h. h < length tree.now) }
{
    let from = pool.owner(object.chunk);
    match heap_of(pool, value) {
        None => None,
        Some(into) => {
            if tree.on_path(into, from) && from != into {
                Some(into)
            } else {
                None
            }
        }
    }
}

#[tactic(auto, using(crate::proofs::Owned::owned_used, crate::proofs::Owned::owned_made))]
/// The write barrier: the work before a reference is written into a field of an object in place of another one. It
/// changes at most two sets:
///
/// - if the new reference points down, the set of the heap into which it points: the field is noted there, unless it is
///   there already. It points down if the owner of its chunk is a task below the owner of the object's chunk;
/// - if the reference in the field isn't nil, and the heap into which it points keeps references, the set of that heap:
///   it is kept there.
///
/// If an allocation fails, no set changes. It costs as much as `Tree::on_path`.
pub fn note_write<H: HoldsSets>(
    tree: &Tree,
    pool: &Pool,
    sets: &mut H,
    source: RefField,
    overwritten: Option<Addr>,
    value: Option<Addr>,
) -> Result<(), AllocError>
    requires object { PointsIntoOwned (length tree.now) pool.now (Some source.object) }
    requires value { PointsIntoOwned (length tree.now) pool.now value }
    requires overwritten { PointsIntoOwned (length tree.now) pool.now overwritten }
    requires sets { length tree.now ≤ H.task_count sets.old }
    ensures noted { OnOk result ((t : ℕ) → H.content sets.new t ≡ option_map (content_after tree.now pool.now source overwritten value t) (H.content sets.old t)) }
    ensures same { OnErr result ((t : ℕ) → H.content sets.new t ≡ H.content sets.old t) }
    ensures sets { H.set_count sets.new ≡ H.set_count sets.old }
    ensures others { sets.new ≡ H.with_sets sets.old sets.new }
{
    let heap = heap_of(pool, overwritten);
    let into = noted_in(tree, pool, source.object, value);
    reserve_kept(sets, heap)?;
    note(sets, into, source)?;
    keep(sets, heap, overwritten);
    Ok(())
}
