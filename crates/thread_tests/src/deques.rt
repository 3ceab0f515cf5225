// Hands that put, take back and steal.
ghost use Rattle.std.specs.Prelude.{◌<◌, ◌≤◌, length};

use std::alloc::AllocError;
use std::sync::Wait;
use std::test::Fail;
use std::thread;
use std::thread::Threads;
use steal_scheduler::{Deques, Hand};

// Each worker's numbers begin at a multiple of this.
const EACH: u32 = 1000;

// A theft, if there is such a victim.
fn stolen<R: Wait>(rt: &R, hand: &mut Hand, victim: u32) -> Option<u32> {
    if (victim as usize) < hand.workers() {
        hand.steal_from(rt, victim)
    } else {
        None
    }
}

// The number of thefts from the victim that found at most one number, if there is such a victim.
fn vain(hand: &Hand, victim: u32) -> Option<u64> {
    if (victim as usize) < hand.workers() {
        Some(hand.vain_thefts(victim))
    } else {
        None
    }
}

#[test]
fn newest_taken_back_and_oldest_stolen(rt: HostRuntime) -> Result<(), Fail> {
    let mut hands = Deques::new(rt.alloc(), 2)?;
    assert!(rt; hands.len() == 2);
    let mut thief = hands.pop().ok_or("a second hand")?;
    let mut owner = hands.pop().ok_or("a first hand")?;
    assert!(rt; (owner.workers(), thief.workers()) == (2, 2));
    assert!(rt; owner.next_own() == None);
    assert!(rt; stolen(&rt, &mut thief, 0) == None);
    assert!(rt; (owner.empty_pops(), thief.empty_pops()) == (1, 0));
    assert!(rt; (vain(&owner, 0), vain(&thief, 0)) == (Some(0), Some(1)));
    for task in 1..=200 {
        owner.put(task)?;
    }
    assert!(rt; owner.next_own() == Some(200));
    assert!(rt; stolen(&rt, &mut thief, 0) == Some(1));
    assert!(rt; stolen(&rt, &mut thief, 1) == None);
    assert!(rt; stolen(&rt, &mut owner, 0) == Some(2));
    assert!(rt; owner.next_own() == Some(199));
    assert!(rt; (owner.empty_pops(), thief.empty_pops()) == (1, 0));
    assert!(rt; (vain(&thief, 0), vain(&thief, 1)) == (Some(1), Some(1)));
    Ok(())
}

// A worker at its hand, and the numbers that it took.
#[derive(Drop)]
struct WorkerState {
    hand: Hand,
    taken: Vec<u32>,
    short_of_memory: bool,
}

// Puts its numbers, taking back every third time and stealing every seventh; then takes back what is left.
fn work<R: Wait>(rt: &R, worker_state: &mut WorkerState, worker: u32) -> Result<(), AllocError>
    requires { worker < 4 }
{
    for step in 0..EACH {
        worker_state.hand.put(worker * EACH + step)?;
        if step % 3 == 0
            && let Some(task) = worker_state.hand.next_own()
        {
            worker_state.taken.push(task)?;
        }
        if step % 7 == 0
            && let Some(task) = stolen(rt, &mut worker_state.hand, (worker + 1) % 4)
        {
            worker_state.taken.push(task)?;
        }
    }
    for _ in 0..EACH {
        if let Some(task) = worker_state.hand.next_own() {
            worker_state.taken.push(task)?;
        }
    }
    Ok(())
}

// Each worker in a thread of its own.
fn all_work<R: Threads + Wait + Sync>(rt: &R, worker_states: &mut [WorkerState])
    requires { length worker_states.old ≤ 4 }
{
    thread::for_each_mut(
        rt,
        worker_states,
        4,
        &|i: usize, worker_state: &mut WorkerState|
            requires { i < 4 }
        { worker_state.short_of_memory = work(rt, worker_state, i as u32).is_err() },
    );
}

#[test]
fn four_workers_take_every_number_once(rt: HostRuntime) -> Result<(), Fail> {
    let mut worker_states = Vec::new(rt.alloc());
    for hand in Deques::new(rt.alloc(), 4)? {
        let taken = Vec::new(rt.alloc());
        worker_states.push(WorkerState {
            hand,
            taken,
            short_of_memory: false,
        })?;
    }
    assert!(rt; worker_states.len() == 4);
    all_work(&rt, worker_states.as_mut_slice());
    let mut taken = Vec::new(rt.alloc());
    for worker_state in worker_states.iter() {
        assert!(rt; !worker_state.short_of_memory);
        taken.extend_from_slice(worker_state.taken.as_slice())?;
    }
    taken.sort()?;
    assert!(rt; taken.len() == 4000);
    for (at, task) in taken.iter().enumerate() {
        assert_eq!(rt; *task as usize, at);
    }
    Ok(())
}
