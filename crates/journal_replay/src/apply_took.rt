// A worker takes a task.

ghost use Rattle.std.specs.Prelude.{◌≡◌, ◌<◌, None, false};
ghost use Rattle.heap_reading.specs.below.core_invariant.{first_cause};
ghost use Rattle.journal_replay.specs.Applied.{MakesFor};
ghost use Rattle.journal_replay.specs.WorldValue.{WorkerHolds};

use crate::out_part::{Made, OutPart};
use legal_calls::{BlockSource, Kind, LegalCalls, NotEntered};

/// A worker takes a task, and then holds its part.
pub(crate) fn apply_took<S: LegalCalls>(
    shared: &mut S,
    blocks: &mut BlockSource,
    worker: u32,
    holding: OutPart,
    t: u32,
) -> Made
    requires room { 0 < (S.value shared.old).journal.room }
    requires first { first_cause (S.value shared.old).end (S.value shared.old).steps (S.value shared.old).settings worker false ≡ None }
    requires holds { WorkerHolds (S.value shared.old) false worker holding }
    ensures { MakesFor (S.value shared.old) (S.value shared.new) worker (record { worker = worker; kind = Kind.Took t }) result }
{
    shared.stands();
    let Ok(block) = blocks.take() else {
        return Made {
            holding,
            answer: Err(NotEntered::NoMemory),
        };
    };
    match shared.took(worker, t, block) {
        Ok(part) => Made {
            holding: OutPart::Part(blocks.unpack(part)),
            answer: Ok(()),
        },
        Err(cause) => Made {
            holding,
            answer: Err(NotEntered::Refuses(cause)),
        },
    }
}
