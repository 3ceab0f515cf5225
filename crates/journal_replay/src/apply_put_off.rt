// A due leaf collection of a task is put off.

ghost use Rattle.std.specs.Prelude.{◌≡◌, ◌<◌, None, false};
ghost use Rattle.heap_reading.specs.below.core_invariant.{first_cause};
ghost use Rattle.journal_replay.specs.Applied.{MakesFor};
ghost use Rattle.journal_replay.specs.WorldValue.{WorkerHolds, HoldsPart};

use crate::out_part::{Made, OutPart, idle_part};
use legal_calls::{Kind, LegalCalls, NotEntered, Private};

// The collection of the part is put off.
fn put_off<S: LegalCalls>(shared: &mut S, worker: u32, part: Private) -> Made
    requires room { 0 < (S.value shared.old).journal.room }
    requires holds { HoldsPart (S.value shared.old) false worker part }
    ensures { MakesFor (S.value shared.old) (S.value shared.new) worker (record { worker = worker; kind = Kind.PutOff part.task }) result }
{
    let mut part = part;
    match shared.put_off(worker, &mut part) {
        Ok(()) => Made {
            holding: OutPart::Part(part),
            answer: Ok(()),
        },
        Err(cause) => Made {
            holding: OutPart::Part(part),
            answer: Err(NotEntered::Refuses(cause)),
        },
    }
}

/// A due leaf collection of a task is put off because there aren't enough chunks.
pub(crate) fn apply_put_off<S: LegalCalls>(
    shared: &mut S,
    worker: u32,
    holding: OutPart,
    t: u32,
) -> Made
    requires room { 0 < (S.value shared.old).journal.room }
    requires first { first_cause (S.value shared.old).end (S.value shared.old).steps (S.value shared.old).settings worker false ≡ None }
    requires holds { WorkerHolds (S.value shared.old) false worker holding }
    ensures { MakesFor (S.value shared.old) (S.value shared.new) worker (record { worker = worker; kind = Kind.PutOff t }) result }
{
    shared.stands();
    match idle_part(holding, t) {
        Ok(part) => put_off(shared, worker, part),
        Err(apart) => apart.made(),
    }
}
