// What a write changes in the set of a heap, if there is one to change.

ghost use Rattle.std.specs.Prelude.{◌≡◌, ℕ, ◌<◌, OnErr, OnOk, IfSome, option_map};
ghost use Rattle.write_barrier.specs.Stored.{with_kept, with_source};

use crate::holder::HoldsSets;
use object_layout::Addr;
use remembered_set::RefField;
use std::alloc::AllocError;

// Reserves capacity for one more reference, if the heap keeps references.
pub(crate) fn reserve_kept<H: HoldsSets>(sets: &mut H, heap: Option<u32>) -> Result<(), AllocError>
    requires { IfSome heap (λ h. h < H.task_count sets.old) }
    ensures same { (t : ℕ) → H.content sets.new t ≡ H.content sets.old t }
    ensures place { OnOk result (IfSome heap (λ h. H.has_place sets.new h)) }
    ensures tasks { H.task_count sets.new ≡ H.task_count sets.old }
    ensures sets { H.set_count sets.new ≡ H.set_count sets.old }
    ensures others { sets.new ≡ H.with_sets sets.old sets.new }
{
    match heap {
        Some(heap) => sets.reserve_kept(heap),
        None => Ok(()),
    }
}

// Notes a down-pointer into a heap.
pub(crate) fn note<H: HoldsSets>(
    sets: &mut H,
    into: Option<u32>,
    source: RefField,
) -> Result<(), AllocError>
    requires { IfSome into (λ h. h < H.task_count sets.old) }
    ensures ok { OnOk result ((t : ℕ) → H.content sets.new t ≡ option_map (with_source into source t) (H.content sets.old t)) }
    ensures err { OnErr result ((t : ℕ) → H.content sets.new t ≡ H.content sets.old t) }
    ensures places { (h : ℕ) → H.has_place sets.old h → H.has_place sets.new h }
    ensures tasks { H.task_count sets.new ≡ H.task_count sets.old }
    ensures sets { H.set_count sets.new ≡ H.set_count sets.old }
    ensures others { sets.new ≡ H.with_sets sets.old sets.new }
{
    match into {
        Some(heap) => sets.note(heap, source),
        None => Ok(()),
    }
}

// Keeps an overwritten reference, if the heap into which it points keeps references.
pub(crate) fn keep<H: HoldsSets>(sets: &mut H, heap: Option<u32>, overwritten: Option<Addr>)
    requires made { IfSome heap (λ h. h < H.task_count sets.old) }
    requires place { IfSome heap (λ h. H.has_place sets.old h) }
    ensures kept { (t : ℕ) → H.content sets.new t ≡ option_map (with_kept heap overwritten t) (H.content sets.old t) }
    ensures tasks { H.task_count sets.new ≡ H.task_count sets.old }
    ensures sets { H.set_count sets.new ≡ H.set_count sets.old }
    ensures others { sets.new ≡ H.with_sets sets.old sets.new }
{
    let Some(heap) = heap else {
        return;
    };
    let Some(reference) = overwritten else {
        return;
    };
    sets.keep(heap, reference);
}
