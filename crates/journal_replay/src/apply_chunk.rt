// A task gets a chunk.

ghost use Rattle.std.specs.Prelude.{◌≡◌, ◌<◌, None, false};
ghost use Rattle.heap_reading.specs.below.core_invariant.{first_cause};
ghost use Rattle.journal_replay.specs.Applied.{MakesFor};
ghost use Rattle.journal_replay.specs.WorldValue.{WorkerHolds, HoldsPart};

use crate::out_part::{Made, OutPart, idle_part};
use legal_calls::{Kind, LegalCalls, Private};

// The part gets a chunk.
fn give_chunk<S: LegalCalls>(shared: &mut S, worker: u32, part: Private) -> Made
    requires room { 0 < (S.value shared.old).journal.room }
    requires holds { HoldsPart (S.value shared.old) false worker part }
    ensures { MakesFor (S.value shared.old) (S.value shared.new) worker (record { worker = worker; kind = Kind.Chunk part.task }) result }
{
    let mut part = part;
    let answer = shared.chunk(worker, &mut part);
    Made {
        holding: OutPart::Part(part),
        answer,
    }
}

/// A task gets the chunk that its next step needs.
pub(crate) fn apply_chunk<S: LegalCalls>(
    shared: &mut S,
    worker: u32,
    holding: OutPart,
    t: u32,
) -> Made
    requires room { 0 < (S.value shared.old).journal.room }
    requires first { first_cause (S.value shared.old).end (S.value shared.old).steps (S.value shared.old).settings worker false ≡ None }
    requires holds { WorkerHolds (S.value shared.old) false worker holding }
    ensures { MakesFor (S.value shared.old) (S.value shared.new) worker (record { worker = worker; kind = Kind.Chunk t }) result }
{
    shared.stands();
    match idle_part(holding, t) {
        Ok(part) => give_chunk(shared, worker, part),
        Err(apart) => apart.made(),
    }
}
