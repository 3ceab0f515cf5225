// The leaf collection of a task ends.

ghost use Rattle.std.specs.Prelude.{◌≡◌, ◌<◌, None, false};
ghost use Rattle.heap_reading.specs.below.run_ledger.{ends_as};
ghost use Rattle.heap_reading.specs.below.core_invariant.{first_cause};
ghost use Rattle.journal_replay.specs.Applied.{MakesFor};
ghost use Rattle.journal_replay.specs.WorldValue.{WorkerHolds, HoldsCopy};

use crate::out_part::{Made, OutPart, copied_part};
use legal_calls::{Kind, LegalCalls, Moved, NotEntered, Private, Refused};

// The first of the three numbers that is wrong.
fn miscounted(moved: &Moved, taken: u32, given: u32, left: u32) -> Option<Refused>
    ensures { result ≡ ends_as (taken, given, left) (moved.now.taken, moved.now.given, moved.now.left) }
{
    if taken != moved.taken {
        return Some(Refused::Count(taken, moved.taken));
    }
    if given != moved.given {
        return Some(Refused::Count(given, moved.given));
    }
    if left != moved.left {
        return Some(Refused::Count(left, moved.left));
    }
    None
}

// The collection of the part ends, with the numbers of its copy.
fn end<S: LegalCalls>(shared: &mut S, worker: u32, part: Private, moved: Moved) -> Made
    requires room { 0 < (S.value shared.old).journal.room }
    requires first { first_cause (S.value shared.old).end (S.value shared.old).steps (S.value shared.old).settings worker false ≡ None }
    requires holds { HoldsCopy (S.value shared.old) worker part moved }
    ensures { MakesFor (S.value shared.old) (S.value shared.new) worker (record { worker = worker; kind = Kind.End part.task moved.taken moved.given moved.left }) result }
{
    shared.stands();
    let mut part = part;
    match shared.leaf_end(worker, &mut part, moved) {
        Ok(()) => Made {
            holding: OutPart::Part(part),
            answer: Ok(()),
        },
        Err(_) => unreachable!(),
    }
}

/// The leaf collection of a task ends, with the numbers of an entry: the chunks taken, those released and the words
/// left.
pub(crate) fn apply_end<S: LegalCalls>(
    shared: &mut S,
    worker: u32,
    holding: OutPart,
    t: u32,
    taken: u32,
    given: u32,
    left: u32,
) -> Made
    requires room { 0 < (S.value shared.old).journal.room }
    requires first { first_cause (S.value shared.old).end (S.value shared.old).steps (S.value shared.old).settings worker false ≡ None }
    requires holds { WorkerHolds (S.value shared.old) false worker holding }
    ensures { MakesFor (S.value shared.old) (S.value shared.new) worker (record { worker = worker; kind = Kind.End t taken given left }) result }
{
    shared.stands();
    match copied_part(holding, t) {
        Ok((part, moved)) => match miscounted(&moved, taken, given, left) {
            None => end(shared, worker, part, moved),
            Some(cause) => Made {
                holding: OutPart::Copied(part, moved),
                answer: Err(NotEntered::Refuses(cause)),
            },
        },
        Err(apart) => apart.made(),
    }
}
