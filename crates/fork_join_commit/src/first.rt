// The slots of a run before the first entry.

ghost use Rattle.std.specs.Prelude.{◌≡◌, ◌∷◌, [], IfOk, None, Some, false, replicate};
ghost use Rattle.step_commit.specs.below.write_barrier.{bare_noted};
ghost use Rattle.step_commit.specs.below.core_invariant.{first_rest};
ghost use Rattle.step_commit.specs.below.task_slots.{ParkedTask as RestOf};

use std::alloc::{AllocError, Global};
use step_commit::{Addr, Frames, LeafHeap, Listed, ParkedTask, Program, TaskSlots, View, Work};

const NIL: Option<Addr> = None;

// The root before its first step.
fn root(alloc: Global, program: &Program) -> Result<ParkedTask, AllocError>
    ensures { IfOk result (λ r. r ≡ first_rest program.now r.heap.slots r.heap.spare) }
{
    let frames = Frames::start(alloc, program.main(), &[0; 16], &[NIL; 16])?;
    Ok(ParkedTask {
        work: Work::Calls(frames),
        heap: LeafHeap::new(alloc),
        view: View::none(),
        allocations: 0,
    })
}

/// The slots of a run before the first entry.
pub fn first_task_slots(alloc: Global, program: &Program) -> Result<TaskSlots, AllocError>
    ensures rests { IfOk result (λ h. (r : RestOf) × (r ≡ first_rest program.now r.heap.slots r.heap.spare) × (h.rests ≡ Some r ∷ [])) }
    ensures sets { IfOk result (λ h. h.sets ≡ bare_noted false ∷ []) }
    ensures marks { IfOk result (λ h. h.marks ≡ None ∷ []) }
{
    TaskSlots::new(alloc, root(alloc, program)?)
}

/// A list without a task for each of `workers` workers.
pub fn none_out(alloc: Global, workers: u32) -> Result<Listed<Option<u32>>, AllocError>
    ensures { IfOk result (λ tasks_out. tasks_out ≡ replicate workers None) }
{
    let mut tasks_out = Listed::new(alloc);
    for _ in 0..workers {
        tasks_out.push(None)?;
    }
    Ok(tasks_out)
}
