//! What a worker does outside the turn, on values that it owns.
ghost use Rattle.std.specs.Prelude.{◌≡◌, IfOk};
ghost use Rattle.copied_part_laws.specs.below.hh_lang.{ProgramText};
ghost use Rattle.turn_entries.specs.Parts.{AtSome, GrowsTo, HasGrown, MayCopy, MayRun, WasCopied};

use io_traits::Gate;
use std::alloc::AllocError;
use std::snapshot::Snapshot;
use turn_entries::{
    Collecting, CollectionLists, Copied, PRIVATE_LIMIT, PartInBlock, Paused, Private, Program,
    Ready, copy, run_local,
};

// Takes steps of a part until they pause, at most as many as one entry holds, and settles its heap if a fork comes
// next.
fn take_steps<G: Gate>(
    part: &mut Private,
    program: &Program,
    gate: &G,
    worker: u32,
) -> Result<Paused, AllocError>
    requires may { AtSome program.now (λ w. MayRun w worker part.old) }
    ensures { IfOk result (HasGrown program.now worker part.old part.new) }
{
    let budget = PRIVATE_LIMIT - part.fresh;
    let why = run_local(part, program, budget, gate, worker)?;
    part.settle_before_fork(program);
    Ok(why)
}

/// Takes steps of a part until they pause, at most as many as one entry holds.
pub fn run_part<G: Gate>(part: PartInBlock, program: &Program, gate: &G, worker: u32) -> Ready
    requires { AtSome program.now (λ w. MayRun w worker part) }
    ensures { GrowsTo program.now worker part result }
{
    let mut part = part;
    match take_steps(part.get_mut(), program, gate, worker) {
        Ok(why) => Ready::Paused(part, why),
        Err(_) => Ready::OutOfMemory,
    }
}

/// Copies the heap of a part whose collection has begun.
pub fn copy_part<G: Gate>(collecting: Collecting, gate: &G, worker: u32) -> Copied
    requires { (p : ProgramText) × AtSome p (λ w. MayCopy w worker collecting) }
    ensures begun { result.begun.value ≡ collecting.part }
    ensures copied { (p : ProgramText) → WasCopied p worker result }
{
    let Collecting { part, lists } = collecting;
    let lists = lists.into_inner();
    let CollectionLists {
        roots,
        to_chunks,
        block: result,
    } = lists;
    let (mut part, block) = part.take_out();
    let begun = Snapshot::of(&part);
    let task = part.task;
    let moved = copy(
        &mut part.heap,
        &mut part.frames,
        &roots,
        to_chunks,
        gate,
        worker,
        task,
    );
    let part = block.fill(part);
    Copied {
        part,
        moved: result.put(moved),
        begun,
    }
}
