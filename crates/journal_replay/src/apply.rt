// The world makes an entry of any kind.

ghost use Rattle.std.specs.Prelude.{◌≡◌, ◌<◌, None, false, length, true};
ghost use Rattle.heap_reading.specs.below.run_trace.{IsKind};
ghost use Rattle.heap_reading.specs.below.core_invariant.{first_cause};
ghost use Rattle.journal_replay.specs.Applied.{is_own, AnswersAll, MakesFor};
ghost use Rattle.journal_replay.specs.WorldValue.{AllHold, WorkerHolds};

use crate::apply_apart::apply_apart;
use crate::apply_begin::apply_begin;
use crate::apply_chunk::apply_chunk;
use crate::apply_end::apply_end;
use crate::apply_put_off::apply_put_off;
use crate::apply_ran::apply_ran;
use crate::apply_took::apply_took;
use crate::out_part::{Made, OutPart};
use heap_reading::Listed;
use legal_calls::{BlockSource, Entry, Kind, LegalCalls, NotEntered};
use std::alloc::AllocError;
use std::mem;

// A worker that may make entries makes one for a task that it takes or holds.
fn make_for<S: LegalCalls>(
    shared: &mut S,
    blocks: &mut BlockSource,
    worker: u32,
    holding: OutPart,
    kind: Kind,
) -> Made
    requires room { 0 < (S.value shared.old).journal.room }
    requires first { first_cause (S.value shared.old).end (S.value shared.old).steps (S.value shared.old).settings worker false ≡ None }
    requires holds { WorkerHolds (S.value shared.old) false worker holding }
    requires kind { IsKind kind }
    requires own { is_own kind ≡ true }
    ensures { MakesFor (S.value shared.old) (S.value shared.new) worker (record { worker = worker; kind = kind }) result }
{
    match kind {
        Kind::Took(t) => apply_took(shared, blocks, worker, holding, t),
        Kind::Ran(t, steps) => apply_ran(shared, blocks, worker, holding, t, steps),
        Kind::Chunk(t) => apply_chunk(shared, worker, holding, t),
        Kind::Begin(t) => apply_begin(shared, worker, holding, t),
        Kind::End(t, taken, given, left) => {
            apply_end(shared, worker, holding, t, taken, given, left)
        }
        Kind::PutOff(t) => apply_put_off(shared, worker, holding, t),
        _ => unreachable!(),
    }
}

// A worker makes an entry for a task that it takes or holds, if it may make entries.
fn make_own<S: LegalCalls>(
    shared: &mut S,
    holdings: &mut Listed<OutPart>,
    blocks: &mut BlockSource,
    worker: u32,
    kind: Kind,
) -> Result<(), NotEntered>
    requires room { 0 < (S.value shared.old).journal.room }
    requires count { length holdings.old ≡ (S.value shared.old).settings.workers }
    requires hold { AllHold (S.value shared.old) false holdings.old }
    requires kind { IsKind kind }
    requires own { is_own kind ≡ true }
    ensures count { length holdings.new ≡ length holdings.old }
    ensures made { AnswersAll (S.value shared.old) (S.value shared.new) (record { worker = worker; kind = kind }) holdings.new result }
{
    shared.stands();
    if let Some(cause) = shared.refused_first(worker) {
        return Err(NotEntered::Refuses(cause));
    }
    let holding = mem::replace(holdings.at_mut(worker as usize), OutPart::Nothing);
    let Made { holding, answer } = make_for(shared, blocks, worker, holding, kind);
    shared.stands();
    holdings.set(worker as usize, holding);
    answer
}

// Whether an entry is for a task that its worker takes or holds.
fn is_own(kind: Kind) -> bool
    ensures { result ≡ is_own kind }
{
    match kind {
        Kind::Mark(_) | Kind::More(_, _) | Kind::Sweep(_, _) | Kind::Fuel => false,
        _ => true,
    }
}

// Makes an entry for which there is capacity.
fn make<S: LegalCalls>(
    shared: &mut S,
    holdings: &mut Listed<OutPart>,
    blocks: &mut BlockSource,
    entry: Entry,
) -> Result<(), NotEntered>
    requires room { 0 < (S.value shared.old).journal.room }
    requires count { length holdings.old ≡ (S.value shared.old).settings.workers }
    requires hold { AllHold (S.value shared.old) false holdings.old }
    ensures count { length holdings.new ≡ length holdings.old }
    ensures made { AnswersAll (S.value shared.old) (S.value shared.new) entry holdings.new result }
{
    shared.stands();
    let worker = entry.worker();
    let kind = entry.kind();
    if is_own(kind) {
        make_own(shared, holdings, blocks, worker, kind)
    } else {
        apply_apart(shared, worker, kind)
    }
}

/// Makes an entry.
pub(crate) fn make_entry<S: LegalCalls>(
    shared: &mut S,
    holdings: &mut Listed<OutPart>,
    blocks: &mut BlockSource,
    entry: Entry,
) -> Result<(), NotEntered>
    requires count { length holdings.old ≡ (S.value shared.old).settings.workers }
    requires hold { AllHold (S.value shared.old) false holdings.old }
    ensures count { length holdings.new ≡ length holdings.old }
    ensures made { AnswersAll (S.value shared.old) (S.value shared.new) entry holdings.new result }
{
    shared.stands();
    match shared.reserve() {
        Ok(()) => make(shared, holdings, blocks, entry),
        Err(AllocError) => Err(NotEntered::NoMemory),
    }
}
