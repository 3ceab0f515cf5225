// Entries for a task that no worker holds: its heap is marked and swept; and the end without fuel.

ghost use Rattle.std.specs.Prelude.{◌≡◌, ◌<◌, false};
ghost use Rattle.heap_reading.specs.below.run_trace.{IsKind};
ghost use Rattle.journal_replay.specs.Applied.{is_own, AnswersApart};

use legal_calls::{Kind, LegalCalls, NotEntered};

// Up to `n` more objects of a heap are marked.
fn mark_more<S: LegalCalls>(shared: &mut S, worker: u32, t: u32, n: u32) -> Result<(), NotEntered>
    requires room { 0 < (S.value shared.old).journal.room }
    requires kind { IsKind (Kind.More t n) }
    ensures { AnswersApart (S.value shared.old) (S.value shared.new) (record { worker = worker; kind = Kind.More t n }) result }
{
    shared.mark_objects(worker, t, n)?;
    Ok(())
}

// A heap is swept.
fn sweep<S: LegalCalls>(shared: &mut S, worker: u32, t: u32, given: u32) -> Result<(), NotEntered>
    requires room { 0 < (S.value shared.old).journal.room }
    ensures { AnswersApart (S.value shared.old) (S.value shared.new) (record { worker = worker; kind = Kind.Sweep t given }) result }
{
    Ok(shared.sweep(worker, t, given)?)
}

// The run ends without fuel.
fn end_for_fuel<S: LegalCalls>(shared: &mut S, worker: u32) -> Result<(), NotEntered>
    requires room { 0 < (S.value shared.old).journal.room }
    ensures { AnswersApart (S.value shared.old) (S.value shared.new) (record { worker = worker; kind = Kind.Fuel }) result }
{
    Ok(shared.fuel(worker)?)
}

// The marking of a heap begins.
fn mark<S: LegalCalls>(shared: &mut S, worker: u32, t: u32) -> Result<(), NotEntered>
    requires room { 0 < (S.value shared.old).journal.room }
    ensures { AnswersApart (S.value shared.old) (S.value shared.new) (record { worker = worker; kind = Kind.Mark t }) result }
{
    shared.mark(worker, t)
}

/// Makes an entry for a task that no worker holds, or ends the run without fuel.
pub(crate) fn apply_apart<S: LegalCalls>(
    shared: &mut S,
    worker: u32,
    kind: Kind,
) -> Result<(), NotEntered>
    requires room { 0 < (S.value shared.old).journal.room }
    requires kind { IsKind kind }
    requires apart { is_own kind ≡ false }
    ensures { AnswersApart (S.value shared.old) (S.value shared.new) (record { worker = worker; kind = kind }) result }
{
    match kind {
        Kind::Mark(t) => mark(shared, worker, t),
        Kind::More(t, n) => mark_more(shared, worker, t, n),
        Kind::Sweep(t, given) => sweep(shared, worker, t, given),
        Kind::Fuel => end_for_fuel(shared, worker),
        _ => unreachable!(),
    }
}
