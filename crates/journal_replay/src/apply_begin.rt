// A leaf collection of a task begins.

ghost use Rattle.std.specs.Prelude.{◌≡◌, ◌<◌, None, false};
ghost use Rattle.heap_reading.specs.below.task_machine.{Private as PrivateOf};
ghost use Rattle.heap_reading.specs.below.core_invariant.{first_cause, CopyingHasBegun, WorkerPartFits, accounts};
ghost use Rattle.journal_replay.specs.Applied.{MakesFor};
ghost use Rattle.journal_replay.specs.WorldValue.{WorkerHolds, HoldsCopy, HoldsPart};

use crate::out_part::{Made, OutPart, idle_part};
use io_traits::EmptyGate;
use legal_calls::{Addr, Kind, LegalCalls, Moved, Private, ToChunks, copy};

// Copies the heap of a part whose collection has begun.
fn copy_begun<S: LegalCalls>(
    shared: &S,
    worker: u32,
    part: &mut Private,
    roots: &[Addr],
    to_chunks: ToChunks,
) -> Moved
    requires goes { (accounts (S.value shared.now)).end ≡ None }
    requires fits { WorkerPartFits (S.value shared.now) worker part.old }
    requires fresh { part.old.fresh ≡ 0 }
    requires begun { (before : PrivateOf) × CopyingHasBegun before part.old roots.now to_chunks }
    ensures { HoldsCopy (S.value shared.now) worker part.new result }
{
    shared.stands();
    let task = part.task;
    copy(
        &mut part.heap,
        &mut part.frames,
        roots,
        to_chunks,
        &EmptyGate,
        worker,
        task,
    )
}

// The collection of the part begins, and its heap is copied.
fn begin<S: LegalCalls>(shared: &mut S, worker: u32, part: Private) -> Made
    requires room { 0 < (S.value shared.old).journal.room }
    requires holds { HoldsPart (S.value shared.old) false worker part }
    ensures { MakesFor (S.value shared.old) (S.value shared.new) worker (record { worker = worker; kind = Kind.Begin part.task }) result }
{
    let mut part = part;
    match shared.leaf_begin(worker, &mut part) {
        Ok((roots, to_chunks)) => {
            let moved = copy_begun(shared, worker, &mut part, &roots, to_chunks);
            Made {
                holding: OutPart::Copied(part, moved),
                answer: Ok(()),
            }
        }
        Err(cause) => Made {
            holding: OutPart::Part(part),
            answer: Err(cause),
        },
    }
}

/// A due leaf collection of a task begins: its heap is copied, which doesn't allocate.
pub(crate) fn apply_begin<S: LegalCalls>(
    shared: &mut S,
    worker: u32,
    holding: OutPart,
    t: u32,
) -> Made
    requires room { 0 < (S.value shared.old).journal.room }
    requires first { first_cause (S.value shared.old).end (S.value shared.old).steps (S.value shared.old).settings worker false ≡ None }
    requires holds { WorkerHolds (S.value shared.old) false worker holding }
    ensures { MakesFor (S.value shared.old) (S.value shared.new) worker (record { worker = worker; kind = Kind.Begin t }) result }
{
    shared.stands();
    match idle_part(holding, t) {
        Ok(part) => begin(shared, worker, part),
        Err(apart) => apart.made(),
    }
}
