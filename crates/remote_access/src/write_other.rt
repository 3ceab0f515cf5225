// A write of an object in the heap of a task that no worker holds, and the frames after it.

ghost use Rattle.std.specs.Prelude.{◌≡◌, ◌<◌, ◌+◌, ◌^◌, OnErr, OnOk, None, ◌≤◌, ℕ, IsSome, Some, length, option_map, slice_index_or, slice_set};
ghost use Rattle.step_commit.specs.below.object_layout.{cell_with_int, with_ref, BeginsInFirstUnit, cell_of, object_of};
ghost use Rattle.step_commit.specs.below.chunk_pool.{slot_at, owner_of};
ghost use Rattle.step_commit.specs.below.write_barrier.{content_after, content_at, PointsIntoOwned};
ghost use Rattle.step_commit.specs.below.core_invariant.{rest_at};
ghost use Rattle.step_commit.specs.below.task_slots.{ParkedTask as RestOf};
ghost use Rattle.remote_access.specs.Other.{store_frames, put_rest, IsWritable};

use std::alloc::AllocError;
use step_commit::{Addr, Frames, Heaps, IntReg, RefField, Tree, Words, note_write};

/// Writes a reference, and notes what the collections of the heaps need to know of it.
pub fn write_reference(
    tree: &Tree,
    heaps: &mut Heaps,
    object: Addr,
    field: u32,
    value: Option<Addr>,
) -> Result<(), AllocError>
    requires there { IsWritable (length tree.now) heaps.old.pool heaps.old.task_slots.rests object field }
    requires value { PointsIntoOwned (length tree.now) heaps.old.pool value }
    requires place { BeginsInFirstUnit value }
    requires task_slots { length tree.now ≤ length heaps.old.task_slots.rests }
    ensures pool { heaps.new.pool ≡ heaps.old.pool }
    ensures marks { heaps.new.task_slots.marks ≡ heaps.old.task_slots.marks }
    ensures many { length heaps.new.task_slots.sets ≡ length heaps.old.task_slots.sets }
    ensures written { (o : ℕ) (r : RestOf) → owner_of heaps.old.pool object.chunk ≡ Some o → rest_at heaps.old.task_slots.rests o ≡ Some r → OnOk result (heaps.new.task_slots.rests ≡ slice_set heaps.old.task_slots.rests o (Some (put_rest r object (with_ref (cell_of r.heap.chunks object) field value)))) }
    ensures noted { (o : ℕ) (r : RestOf) → owner_of heaps.old.pool object.chunk ≡ Some o → rest_at heaps.old.task_slots.rests o ≡ Some r → OnOk result ((t : ℕ) → content_at heaps.new.task_slots.sets t ≡ option_map (content_after tree.now heaps.old.pool (record { object = object; field = field }) (slice_index_or (object_of r.heap.chunks object).refs field None) value t) (content_at heaps.old.task_slots.sets t)) }
    ensures same { OnErr result (heaps.new.task_slots.rests ≡ heaps.old.task_slots.rests) }
    ensures no_sets { OnErr result ((t : ℕ) → content_at heaps.new.task_slots.sets t ≡ content_at heaps.old.task_slots.sets t) }
{
    let overwritten = heaps.ref_field(object, field);
    note_write(
        tree,
        &heaps.pool,
        &mut heaps.task_slots,
        RefField { object, field },
        overwritten,
        value,
    )?;
    heaps.set_ref_field(object, field, value);
    Ok(())
}

/// Writes a number.
pub fn write_number(heaps: &mut Heaps, object: Addr, field: u32, value: i64)
    requires used { IsSome (slot_at heaps.old.pool object.chunk) }
    requires there { (o : ℕ) → owner_of heaps.old.pool object.chunk ≡ Some o → IsSome (rest_at heaps.old.task_slots.rests o) }
    requires field { (o : ℕ) (r : RestOf) → owner_of heaps.old.pool object.chunk ≡ Some o → rest_at heaps.old.task_slots.rests o ≡ Some r → field < length (object_of r.heap.chunks object).ints }
    ensures pool { heaps.new.pool ≡ heaps.old.pool }
    ensures written { (o : ℕ) (r : RestOf) → owner_of heaps.old.pool object.chunk ≡ Some o → rest_at heaps.old.task_slots.rests o ≡ Some r → heaps.new.task_slots ≡ record heaps.old.task_slots { rests = slice_set heaps.old.task_slots.rests o (Some (put_rest r object (cell_with_int (cell_of r.heap.chunks object) field value))) } }
{
    let owner = heaps.pool.owner(object.chunk);
    heaps.task_slots.set_number(owner, object, field, value);
}

/// The frames go on after a write, with 1 in the number register that a compare and swap sets.
pub fn go_on(frames: &mut Frames, swap: Option<IntReg>)
    requires { frames.old.top.next + 1 < 2 ^ 32 }
    ensures { frames.new ≡ store_frames swap frames.old }
{
    let next = frames.next() + 1;
    if let Some(register) = swap {
        frames.set_int(register.index() as u32, 1);
    }
    frames.set_next(next);
}
