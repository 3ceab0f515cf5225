//! What a worker does until the run is over.
ghost use Rattle.std.specs.Prelude.{◌≡◌, IfNone, IfSome};
ghost use Rattle.turn_entries.specs.below.turn_lock.{view, identity};
ghost use Rattle.turn_entries.specs.Parts.{ComesWith, GoesWith};
ghost use Rattle.worker_run.specs.WorkerStates.{ChangesHand, FewThefts, HasStopped, IsWorkerState, SameWorkerState};
ghost use Rattle.worker_run.specs.Rounds.{GoesRound};
ghost use Rattle.worker_run.specs.Tasks.{Looks, Prepares, SharesRight};

use crate::local::{copy_part, run_part};
use crate::parking::Parker;
use crate::run_context::RunContext;
use crate::tasks::{find, put};
use crate::turn::take_turn;
use crate::worker_state::WorkerState;
use io_traits::{Gate, Point};
use std::sync::Wait;
use turn_entries::{BlockSource, EntryCalls, Next, Ready};

// The worker looks for a task.
fn look<R: Wait, P: EntryCalls>(rt: &R, parker: &Parker, worker_state: &mut WorkerState<P>) -> Ready
    requires { FewThefts worker_state.old }
    ensures hand { ChangesHand worker_state.old worker_state.new }
    ensures found { Looks worker_state.old.worker worker_state.old.hand worker_state.new.hand result }
{
    Ready::Found(find(
        rt,
        parker,
        &mut worker_state.hand,
        &mut worker_state.signals,
        worker_state.worker,
    ))
}

// The worker puts the right child of a fork where others find it, and goes on with the left one.
fn share_right<P: EntryCalls>(worker_state: &mut WorkerState<P>, left: u32, right: u32) -> Ready
    ensures hand { ChangesHand worker_state.old worker_state.new }
    ensures shared { SharesRight left right worker_state.old.hand worker_state.new.hand result }
{
    match put(&mut worker_state.hand, right) {
        Ok(()) => {
            worker_state.signals.put();
            Ready::Found(Some(left))
        }
        Err(_) => Ready::OutOfMemory,
    }
}

/// What the worker brings to its next turn; None if it stops.
pub fn prepare<R: Wait, P: EntryCalls, G: Gate>(
    rt: &R,
    shop: &RunContext<P, G>,
    worker_state: &mut WorkerState<P>,
    next: Next,
) -> Option<Ready>
    requires goes { GoesWith shop.now.program.now worker_state.old.worker (view worker_state.old.seat).part next }
    requires few { FewThefts worker_state.old }
    ensures hand { ChangesHand worker_state.old worker_state.new }
    ensures comes { IfSome result (ComesWith shop.now.program.now worker_state.old.worker (view worker_state.old.seat).part) }
    ensures tasks { IfSome result (Prepares shop.now.program.now worker_state.old.worker next worker_state.old.hand worker_state.new.hand) }
    ensures stops { IfNone result ((next ≡ Next.Stop) × (worker_state.new ≡ worker_state.old)) }
{
    let worker = worker_state.worker;
    match next {
        Next::Running(part) => {
            shop.parker.ring_if(rt, worker_state.signals.pay_if_due());
            Some(run_part(part, shop.program, shop.gate, worker))
        }
        Next::Collecting(collecting) => {
            shop.parker.ring_if(rt, worker_state.signals.pay());
            Some(Ready::Copied(copy_part(collecting, shop.gate, worker)))
        }
        Next::Copied(copied) => Some(Ready::Copied(copied)),
        Next::Found(task) => Some(Ready::Found(Some(task))),
        Next::Forked { left, right } => Some(share_right(worker_state, left, right)),
        Next::Resumed(task) => Some(Ready::Found(Some(task))),
        Next::Idle => Some(look(rt, shop.parker, worker_state)),
        Next::Waits => {
            shop.parker.wait_past(rt, worker_state.signals.heard());
            Some(look(rt, shop.parker, worker_state))
        }
        Next::Stop => {
            shop.parker.ring_all(rt);
            None
        }
    }
}

// The task that is passed to the gate.
fn task_of(ready: &Ready) -> u32 {
    match ready {
        Ready::Paused(part, _) => part.get().task,
        Ready::Copied(copied) => copied.part.get().task,
        Ready::Found(Some(task)) => *task,
        _ => 0,
    }
}

/// Works until the run is over, as the worker has seen at its last turn.
pub fn work<R: Wait, P: EntryCalls + Drop, G: Gate>(
    rt: &R,
    shop: &RunContext<P, G>,
    worker_state: &mut WorkerState<P>,
)
    requires worker_state { IsWorkerState (identity shop.now.turn.now) shop.now.program.now worker_state.old }
    ensures worker_state { IsWorkerState (identity shop.now.turn.now) shop.now.program.now worker_state.new }
    ensures same { SameWorkerState worker_state.old worker_state.new }
    ensures rounds { GoesRound P.value shop.now.program.now worker_state.old Next.Idle worker_state.new Next.Stop }
    ensures over { HasStopped P.value worker_state.new }
{
    let mut blocks = BlockSource::new(worker_state.alloc);
    let mut next = Next::Idle;
    for _ in rt.forever() {
        let Some(ready) = prepare(rt, shop, worker_state, next) else {
            return;
        };
        let task = task_of(&ready);
        shop.gate.pass(worker_state.worker, task, Point::BeforeTurn);
        next = take_turn(rt, shop, worker_state, &mut blocks, ready);
        shop.gate.pass(worker_state.worker, task, Point::AfterTurn);
    }
    unreachable!()
}
