// The start of the marking of a heap, and how it begins.

ghost use Rattle.std.specs.Prelude.{◌≡◌, ◌++◌, All, IfOk, IfSome, IsSome, OnOk, slice_get};
ghost use Rattle.std.specs.List.{flat_map};
ghost use Rattle.core_invariant.specs.below.object_layout.{HasObjectAt};
ghost use Rattle.core_invariant.specs.below.task_frames.{frames_of};
ghost use Rattle.core_invariant.specs.below.remembered_set.{into, AreFields};
ghost use Rattle.core_invariant.specs.below.copying_gc.{frame_references};
ghost use Rattle.core_invariant.specs.below.task_slots.{resting_references, resting};
ghost use Rattle.core_invariant.specs.Roots.{sources_of};
ghost use Rattle.core_invariant.specs.SharedValue.{rest_at};
ghost use Rattle.heap_marking.specs.Starts.{starts_in, MarkingHasBegun};

use core_invariant::{Addr, Frames, Heaps, LeafHeap, Marking, MarkingRoom, ParkedTask, Work};
use std::alloc::{AllocError, Global};

// Appends a reference, if it leads into the heap.
fn push_own(
    starts: &mut Vec<Addr>,
    reference: Option<Addr>,
    heap: &LeafHeap,
) -> Result<(), AllocError>
    ensures { OnOk result (starts.new.items ≡ starts.old.items ++ into heap.now.chunks reference) }
{
    if let Some(object) = reference {
        if heap.owns(object) {
            starts.push(object)?;
        }
    }
    Ok(())
}

// Appends those of these references that lead into the heap.
fn push_all_own(
    starts: &mut Vec<Addr>,
    references: &[Option<Addr>],
    heap: &LeafHeap,
) -> Result<(), AllocError>
    ensures { OnOk result (starts.new.items ≡ starts.old.items ++ flat_map (into heap.now.chunks) references.now) }
{
    for &reference in references {
        push_own(starts, reference, heap)?;
    }
    Ok(())
}

// Appends what the registers of frames hold of the heap.
fn push_registers(
    starts: &mut Vec<Addr>,
    frames: &Frames,
    heap: &LeafHeap,
) -> Result<(), AllocError>
    ensures { OnOk result (starts.new.items ≡ starts.old.items ++ flat_map (into heap.now.chunks) (frame_references (frames_of frames.now))) }
{
    for frame in 0..frames.depth() {
        let references = frames.references_in(frame);
        push_all_own(starts, &references, heap)?;
    }
    Ok(())
}

// What the remembered fields of the heap of a task at rest and its registers hold now.
fn starts_in(
    alloc: Global,
    heaps: &Heaps,
    task: u32,
    rest: &ParkedTask,
) -> Result<Vec<Addr>, AllocError>
    requires { AreFields resting_references (resting heaps.now) (sources_of (slice_get heaps.now.task_slots.sets task)) }
    ensures { IfOk result (λ v. v.items ≡ starts_in (resting heaps.now) (sources_of (slice_get heaps.now.task_slots.sets task)) rest.now) }
{
    let mut starts = heaps.targets(alloc, task, rest.heap.chunks())?;
    if let Work::Calls(frames) = &rest.work {
        push_registers(&mut starts, frames, &rest.heap)?;
    }
    Ok(starts)
}

/// A marking in these buffers that has marked nothing yet, of the heap of a task at rest: it starts at what the heap's
/// remembered fields and the task's registers hold now.
pub fn begin_marking(
    alloc: Global,
    room: MarkingRoom,
    heaps: &Heaps,
    task: u32,
) -> Result<Marking, AllocError>
    requires there { IsSome (rest_at heaps.now.task_slots.rests task) }
    requires fields { AreFields resting_references (resting heaps.now) (sources_of (slice_get heaps.now.task_slots.sets task)) }
    requires held { IfSome (rest_at heaps.now.task_slots.rests task) (λ r. All (HasObjectAt r.heap.chunks) (starts_in (resting heaps.now) (sources_of (slice_get heaps.now.task_slots.sets task)) r)) }
    ensures { IfOk result (λ m. IfSome (rest_at heaps.now.task_slots.rests task) (λ r. MarkingHasBegun r.heap.chunks (starts_in (resting heaps.now) (sources_of (slice_get heaps.now.task_slots.sets task)) r) m)) }
{
    match heaps.task_slots.rest(task) {
        Some(rest) => {
            let starts = starts_in(alloc, heaps, task, rest)?;
            Marking::begin_in(room, &rest.heap, &starts)
        }
        None => unreachable!(),
    }
}
