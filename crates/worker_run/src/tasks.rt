//! How a worker finds a task, and where it puts those that are ready.
ghost use Rattle.std.specs.Prelude.{◌<◌, ◌^◌, length, IfErr, OnOk};
ghost use Rattle.steal_scheduler.specs.Hands.{thefts};
ghost use Rattle.worker_run.specs.Tasks.{Finds, KeepsHand, Puts};

use crate::parking::Parker;
use crate::signals::Signals;
use std::alloc::AllocError;
use std::sync::Wait;
use steal_scheduler::Hand;

/// The newest own task; otherwise one stolen from the others, which are tried in ascending order of their numbers from
/// the own one on, cyclically. Before these are tried, the signals so far are counted: nobody else puts a task where the
/// own ones are.
pub(crate) fn find<R: Wait>(
    rt: &R,
    parker: &Parker,
    hand: &mut Hand,
    signals: &mut Signals,
    worker: u32,
) -> Option<u32>
    requires { length (thefts hand.old) < 2 ^ 32 }
    ensures { Finds worker hand.old hand.new result }
{
    if let Some(task) = hand.next_own() {
        signals.took_back();
        return Some(task);
    }
    signals.looked(parker.rings(rt));
    let workers = hand.workers() as u64;
    for k in 1..workers {
        let victim = (u64::from(worker) + k) % workers;
        if let Some(task) = hand.steal_from(rt, victim as u32) {
            return Some(task);
        }
    }
    None
}

/// Puts a task on the own deque. If an allocation fails the hand is unchanged.
pub(crate) fn put(hand: &mut Hand, task: u32) -> Result<(), AllocError>
    ensures ok { OnOk result (Puts hand.old hand.new task) }
    ensures err { IfErr result (λ _. KeepsHand hand.old hand.new) }
{
    hand.put(task)?;
    Ok(())
}
