// The part of a task that a worker takes.

ghost use Rattle.std.specs.Prelude.{◌≡◌, None};
ghost use Rattle.refinement_laws.specs.below.task_frames.{FramesValue};
ghost use Rattle.core_invariant.specs.WorkerPartFits.{taken_part, HasFrames};

use refinement_laws::Private;
use task_slots::{ParkedTask, Work};

/// The part of a task that no worker held.
pub fn opened(rest: ParkedTask, task: u32, leaf_limit: u64, field_limit: u32) -> Private
    requires { HasFrames rest.work }
    ensures part { (s : FramesValue) → rest.work ≡ Work.Calls s → result ≡ taken_part task leaf_limit field_limit rest s }
    ensures task { result.task ≡ task }
    ensures fresh { result.fresh ≡ 0 }
    ensures heap { result.heap ≡ rest.heap }
    ensures idle { result.begun ≡ None }
{
    let ParkedTask {
        work,
        heap,
        view,
        allocations,
    } = rest;
    let Work::Calls(frames) = work else {
        unreachable!()
    };
    Private {
        task,
        frames,
        heap,
        view,
        allocations,
        leaf_limit,
        field_limit,
        fresh: 0,
        begun: None,
    }
}
