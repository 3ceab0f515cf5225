// What a task leaves behind after its last frame returned.

ghost use Rattle.std.specs.Prelude.{◌≡◌};
ghost use Rattle.step_commit.specs.Alone.{ended_rest};

use core_invariant::{ParkedTask, Private, Work};

/// The parked state of a task whose last frame returned.
pub fn at_end(part: Private) -> ParkedTask
    ensures { result ≡ ended_rest part }
{
    let result = (part.frames.int(0), part.frames.reference(0));
    ParkedTask {
        work: Work::Result(result.0, result.1),
        heap: part.heap,
        view: part.view,
        allocations: part.allocations,
    }
}
