// A task takes steps.

ghost use Rattle.std.specs.Prelude.{◌≡◌, ◌<◌, ◌≤◌, ◌+◌, ◌^◌, IfOk, None, false};
ghost use Rattle.heap_reading.specs.below.run_ledger.{most_steps};
ghost use Rattle.heap_reading.specs.below.core_invariant.{first_cause, WorkerPartFits};
ghost use Rattle.fork_join_commit.specs.below.step_commit.{alone_entry, IsShared};
ghost use Rattle.legal_calls.specs.below.entry_calls.{LeavesBy};
ghost use Rattle.journal_replay.specs.Applied.{holding_of, MakesFor};
ghost use Rattle.journal_replay.specs.Next.{standing_by, PausesNext};
ghost use Rattle.journal_replay.specs.WorldValue.{WorkerHolds, HoldsPart};

use crate::out_part::{Made, OutPart, idle_part};
use io_traits::EmptyGate;
use legal_calls::{
    BlockSource, Kind, Leaving, LegalCalls, Lent, NotEntered, PRIVATE_LIMIT, Paused, Private, Ran,
    Refused, run_local,
};
use std::alloc::AllocError;

// Takes more private steps, as many as the budget or as precede one that isn't private, and returns what comes next.
fn run_more<S: LegalCalls>(
    shared: &S,
    worker: u32,
    part: &mut Private,
    budget: u32,
) -> Result<Paused, AllocError>
    requires first { first_cause (S.value shared.now).end (S.value shared.now).steps (S.value shared.now).settings worker false ≡ None }
    requires fits { WorkerPartFits (S.value shared.now) worker part.old }
    requires idle { part.old.begun ≡ None }
    requires few { part.old.fresh + budget ≤ most_steps }
    requires counted { part.old.allocations + budget < 2 ^ 32 }
    ensures fits { WorkerPartFits (S.value shared.now) worker part.new }
    ensures idle { part.new.begun ≡ None }
    ensures task { part.new.task ≡ part.old.task }
    ensures within { part.new.fresh ≤ part.old.fresh + budget }
    ensures counted { part.new.allocations ≤ part.old.allocations + budget }
    ensures next { IfOk result (PausesNext (S.value shared.now) part.new) }
    ensures spent { IfOk result (λ why. why ≡ Paused.Spent → part.new.fresh ≡ part.old.fresh + budget) }
{
    shared.stands();
    shared.may_run(worker, part);
    run_local(part, shared.program(), budget, &EmptyGate, worker)
}

// Takes `steps` private steps, or as many as precede one that isn't private, and returns what comes next.
fn run_part<S: LegalCalls>(
    shared: &S,
    worker: u32,
    part: &mut Private,
    steps: u32,
) -> Result<Paused, AllocError>
    requires first { first_cause (S.value shared.now).end (S.value shared.now).steps (S.value shared.now).settings worker false ≡ None }
    requires holds { HoldsPart (S.value shared.now) false worker part.old }
    requires few { steps ≤ most_steps }
    ensures fits { WorkerPartFits (S.value shared.now) worker part.new }
    ensures idle { part.new.begun ≡ None }
    ensures task { part.new.task ≡ part.old.task }
    ensures within { part.new.fresh ≤ steps }
    ensures next { IfOk result (PausesNext (S.value shared.now) part.new) }
    ensures spent { IfOk result (λ why. why ≡ Paused.Spent → part.new.fresh ≡ steps) }
{
    shared.stands();
    shared.may_run(worker, part);
    if steps <= PRIVATE_LIMIT {
        return run_more(shared, worker, part, steps);
    }
    match run_more(shared, worker, part, PRIVATE_LIMIT)? {
        Paused::Spent => run_more(shared, worker, part, 1),
        why => Ok(why),
    }
}

// Commits the fresh steps of the part.
fn enter_private<S: LegalCalls>(shared: &mut S, worker: u32, part: Private) -> Made
    requires room { 0 < (S.value shared.old).journal.room }
    requires fits { WorkerPartFits (S.value shared.old) worker part }
    requires idle { part.begun ≡ None }
    requires some { 0 < part.fresh }
    ensures { MakesFor (S.value shared.old) (S.value shared.new) worker (record { worker = worker; kind = Kind.Ran part.task part.fresh }) result }
{
    let mut part = part;
    match shared.ran_private(worker, &mut part) {
        Ok(()) => Made {
            holding: OutPart::Part(part),
            answer: Ok(()),
        },
        Err(cause) => Made {
            holding: OutPart::Part(part),
            answer: Err(NotEntered::Refuses(cause)),
        },
    }
}

// What a worker holds after a step is committed that gives its part up.
fn holding_of(blocks: &mut BlockSource, ran: Ran) -> OutPart
    ensures { result ≡ holding_of ran }
{
    match ran {
        Ran::Forked { left, right } => OutPart::Nothing,
        Ran::Ended { resumed } => OutPart::Nothing,
        Ran::Over(part) => OutPart::Part(blocks.unpack(part)),
        Ran::Done => OutPart::Nothing,
    }
}

// Commits the fresh steps of the part and the shared one that comes next, which gives the part up in this way.
fn enter_leaving<S: LegalCalls>(
    shared: &mut S,
    blocks: &mut BlockSource,
    worker: u32,
    part: Private,
    leaving: Leaving,
) -> Made
    requires room { 0 < (S.value shared.old).journal.room }
    requires first { first_cause (S.value shared.old).end (S.value shared.old).steps (S.value shared.old).settings worker false ≡ None }
    requires fits { WorkerPartFits (S.value shared.old) worker part }
    requires idle { part.begun ≡ None }
    requires shared { IsShared (S.value shared.old) part }
    requires leaves { LeavesBy (S.value shared.old) part leaving }
    ensures { MakesFor (S.value shared.old) (S.value shared.new) worker (alone_entry worker part) result }
{
    shared.stands();
    let Ok(block) = blocks.take() else {
        return Made {
            holding: OutPart::Part(part),
            answer: Err(NotEntered::NoMemory),
        };
    };
    match shared.ran_leaving(blocks, worker, block.fill(part), leaving) {
        Ok(ran) => Made {
            holding: holding_of(blocks, ran),
            answer: Ok(()),
        },
        Err(failed) => Made {
            holding: OutPart::Part(blocks.unpack(failed.part)),
            answer: Err(failed.cause),
        },
    }
}

// Commits the fresh steps of the part and the shared one that comes next.
fn enter_last<S: LegalCalls>(
    shared: &mut S,
    blocks: &mut BlockSource,
    worker: u32,
    part: Private,
) -> Made
    requires room { 0 < (S.value shared.old).journal.room }
    requires first { first_cause (S.value shared.old).end (S.value shared.old).steps (S.value shared.old).settings worker false ≡ None }
    requires fits { WorkerPartFits (S.value shared.old) worker part }
    requires idle { part.begun ≡ None }
    requires shared { IsShared (S.value shared.old) part }
    ensures { MakesFor (S.value shared.old) (S.value shared.new) worker (alone_entry worker part) result }
{
    shared.stands();
    let mut part = part;
    match shared.ran_lent(worker, &mut part) {
        Ok(Lent::Goes) => Made {
            holding: OutPart::Part(part),
            answer: Ok(()),
        },
        Ok(Lent::Over) => Made {
            holding: OutPart::Part(part),
            answer: Ok(()),
        },
        Ok(Lent::Leaves(leaving)) => enter_leaving(shared, blocks, worker, part, leaving),
        Err(cause) => Made {
            holding: OutPart::Part(part),
            answer: Err(cause),
        },
    }
}

// How many steps fit in one entry: the private ones, and one more that isn't private.
fn standing(part: &Private, paused: Paused) -> u32
    requires { part.now.fresh ≤ most_steps }
    ensures { result ≡ standing_by part.now paused }
{
    match paused {
        Paused::Shared => part.fresh + 1,
        _ => part.fresh,
    }
}

// Commits `steps` steps of the part, if they fit in one entry.
fn enter<S: LegalCalls>(
    shared: &mut S,
    blocks: &mut BlockSource,
    worker: u32,
    part: Private,
    paused: Paused,
    steps: u32,
) -> Made
    requires room { 0 < (S.value shared.old).journal.room }
    requires first { first_cause (S.value shared.old).end (S.value shared.old).steps (S.value shared.old).settings worker false ≡ None }
    requires fits { WorkerPartFits (S.value shared.old) worker part }
    requires idle { part.begun ≡ None }
    requires some { 0 < steps }
    requires few { steps ≤ most_steps }
    requires within { part.fresh ≤ steps }
    requires next { PausesNext (S.value shared.old) part paused }
    requires spent { paused ≡ Paused.Spent → part.fresh ≡ steps }
    ensures { MakesFor (S.value shared.old) (S.value shared.new) worker (record { worker = worker; kind = Kind.Ran part.task steps }) result }
{
    if part.fresh == steps {
        return enter_private(shared, worker, part);
    }
    let most = standing(&part, paused);
    if most == steps {
        return enter_last(shared, blocks, worker, part);
    }
    shared.stands();
    Made {
        holding: OutPart::Part(part),
        answer: Err(NotEntered::Refuses(Refused::Long(most))),
    }
}

// The part takes `steps` steps, which are committed.
fn ran<S: LegalCalls>(
    shared: &mut S,
    blocks: &mut BlockSource,
    worker: u32,
    part: Private,
    steps: u32,
) -> Made
    requires room { 0 < (S.value shared.old).journal.room }
    requires first { first_cause (S.value shared.old).end (S.value shared.old).steps (S.value shared.old).settings worker false ≡ None }
    requires holds { HoldsPart (S.value shared.old) false worker part }
    requires some { 0 < steps }
    requires few { steps ≤ most_steps }
    ensures { MakesFor (S.value shared.old) (S.value shared.new) worker (record { worker = worker; kind = Kind.Ran part.task steps }) result }
{
    let mut part = part;
    match run_part(shared, worker, &mut part, steps) {
        Ok(paused) => {
            part.settle_before_fork(shared.program());
            enter(shared, blocks, worker, part, paused, steps)
        }
        Err(AllocError) => Made {
            holding: OutPart::Part(part),
            answer: Err(NotEntered::NoMemory),
        },
    }
}

/// A task takes `steps` steps: all except the last have to be private.
pub(crate) fn apply_ran<S: LegalCalls>(
    shared: &mut S,
    blocks: &mut BlockSource,
    worker: u32,
    holding: OutPart,
    t: u32,
    steps: u32,
) -> Made
    requires room { 0 < (S.value shared.old).journal.room }
    requires first { first_cause (S.value shared.old).end (S.value shared.old).steps (S.value shared.old).settings worker false ≡ None }
    requires holds { WorkerHolds (S.value shared.old) false worker holding }
    requires some { 0 < steps }
    requires few { steps ≤ most_steps }
    ensures { MakesFor (S.value shared.old) (S.value shared.new) worker (record { worker = worker; kind = Kind.Ran t steps }) result }
{
    shared.stands();
    match idle_part(holding, t) {
        Ok(part) => ran(shared, blocks, worker, part, steps),
        Err(apart) => apart.made(),
    }
}
