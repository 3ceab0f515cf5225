//! One turn of a worker.
ghost use Rattle.std.specs.Prelude.{◌≡◌, IfSome, option_map};
ghost use Rattle.copied_part_laws.specs.below.core_invariant.{WorkerPartFits};
ghost use Rattle.turn_entries.specs.below.turn_lock.{view, identity};
ghost use Rattle.turn_entries.specs.Parts.{ComesWith, GoesWith, TakesFrom};
ghost use Rattle.worker_run.specs.WorkerStates.{GivesOne, HasEntry, HasGiven, IsWorkerState, KeepsPlace, SameWorkerState, TakesTurn};

use crate::run_context::RunContext;
use crate::worker_state::WorkerState;
use std::snapshot::Snapshot;
use std::sync::Wait;
use turn_entries::{BlockSource, EntryCalls, Next, Private, Ready, Run, Turn, TurnOutcome};

// Gives the value back with the entry that was made; the worker keeps the part.
fn give_entry<P: EntryCalls + Drop>(
    turn: &Turn<Run<P>>,
    worker_state: &mut WorkerState<P>,
    run: Run<P>,
    kept: Option<&Snapshot<Private>>,
)
    requires entry { HasEntry P.value (identity turn.now) worker_state.old run }
    requires kept { IfSome kept (λ s. WorkerPartFits (P.value run.paced) worker_state.old.worker s.now.value) }
    ensures worker_state { IsWorkerState (identity turn.now) (P.value run.paced).program worker_state.new }
    ensures same { SameWorkerState worker_state.old worker_state.new }
    ensures place { KeepsPlace worker_state.old worker_state.new }
    ensures part { (view worker_state.new.seat).part ≡ option_map (λ s. s.now) kept.entry }
    ensures gave { HasGiven P.value worker_state.new run }
    ensures one { GivesOne worker_state.old worker_state.new }
{
    run.is_short();
    worker_state.given += 1;
    turn.give_back(&mut worker_state.seat, run, kept);
}

// Gives the value back with the entry that was made, and goes on with what comes next.
fn give<P: EntryCalls + Drop>(
    turn: &Turn<Run<P>>,
    worker_state: &mut WorkerState<P>,
    run: Run<P>,
    next: Next,
) -> Next
    requires entry { HasEntry P.value (identity turn.now) worker_state.old run }
    requires takes { TakesFrom (P.value run.paced) worker_state.old.worker next }
    ensures worker_state { IsWorkerState (identity turn.now) (P.value run.paced).program worker_state.new }
    ensures same { SameWorkerState worker_state.old worker_state.new }
    ensures place { KeepsPlace worker_state.old worker_state.new }
    ensures kept { result ≡ next }
    ensures next { GoesWith (P.value run.paced).program worker_state.old.worker (view worker_state.new.seat).part result }
    ensures gave { HasGiven P.value worker_state.new run }
    ensures one { GivesOne worker_state.old worker_state.new }
{
    match next {
        Next::Running(part) => {
            let kept = part.snapshot();
            give_entry(turn, worker_state, run, Some(&kept));
            Next::Running(part)
        }
        Next::Collecting(collecting) => {
            let kept = collecting.part.snapshot();
            give_entry(turn, worker_state, run, Some(&kept));
            Next::Collecting(collecting)
        }
        Next::Copied(copied) => {
            give_entry(turn, worker_state, run, Some(&copied.begun));
            Next::Copied(copied)
        }
        next => {
            give_entry(turn, worker_state, run, None);
            next
        }
    }
}

/// Takes the turn with what the worker brings, and makes the entry that comes next, if any.
pub fn take_turn<R: Wait, P: EntryCalls + Drop, G>(
    rt: &R,
    shop: &RunContext<P, G>,
    worker_state: &mut WorkerState<P>,
    blocks: &mut BlockSource,
    ready: Ready,
) -> Next
    requires worker_state { IsWorkerState (identity shop.now.turn.now) shop.now.program.now worker_state.old }
    requires comes { ComesWith shop.now.program.now worker_state.old.worker (view worker_state.old.seat).part ready }
    ensures worker_state { IsWorkerState (identity shop.now.turn.now) shop.now.program.now worker_state.new }
    ensures same { SameWorkerState worker_state.old worker_state.new }
    ensures next { GoesWith shop.now.program.now worker_state.old.worker (view worker_state.new.seat).part result }
    ensures turn { TakesTurn P.value worker_state.old worker_state.new ready result }
{
    let mut run = shop.turn.take(rt, &mut worker_state.seat);
    match run.act(blocks, worker_state.worker, ready) {
        TurnOutcome::Entered(next) => give(shop.turn, worker_state, run, next),
        TurnOutcome::Same(next) => {
            shop.turn.release_unchanged(&mut worker_state.seat, run);
            next
        }
    }
}
