// Four workers in threads take one turn again and again.
ghost use Rattle.std.specs.Prelude.{◌≡◌, ℕ, Some, slice_get};
ghost use Rattle.worker_run.specs.below.turn_lock.{HasNoTurn, identity};
ghost use Rattle.worker_run.specs.below.core_invariant.{SharedValue};
ghost use Rattle.worker_run.specs.declared.worker_state.WorkerState.{WorkerState};

use gc_pacer::Paced;
use journal_replay::{Program, Settings, Version};
use program_reader::read_program;
use std::alloc::Global;
use std::hint::spin_loop;
use std::sync::Wait;
use std::sync::atomic::{AtomicBool, AtomicU64, Ordering};
use std::thread;
use std::thread::Threads;
use worker_run::{Run, Turn, WorkerState, opened};

// How often each worker takes the turn, and how long it keeps it.
const ROUNDS: u32 = 1000;

const LENGTH: u32 = 20;

// Whether a worker has the turn, how often one had it, and how often one got it while another had it.
#[derive(Drop)]
struct Watch {
    taken: AtomicBool,
    rounds: AtomicU64,
    doubled: AtomicU64,
}

impl Watch {
    fn new() -> Watch {
        Watch {
            taken: AtomicBool::new(false),
            rounds: AtomicU64::new(0),
            doubled: AtomicU64::new(0),
        }
    }

    // A worker has the turn for a while.
    fn stay(&self) {
        if self.taken.swap(true, Ordering::SeqCst) {
            self.doubled.fetch_add(1, Ordering::SeqCst);
        }
        for _ in 0..LENGTH {
            spin_loop();
        }
        self.rounds.fetch_add(1, Ordering::SeqCst);
        self.taken.store(false, Ordering::SeqCst);
    }

    // How often a worker had the turn, and how often two had it.
    fn told(&self) -> (u64, u64) {
        (
            self.rounds.load(Ordering::SeqCst),
            self.doubled.load(Ordering::SeqCst),
        )
    }
}

// The worker has the turn once, and returns the value unchanged.
fn pass<R: Wait>(
    rt: &R,
    turn: &Turn<Run<Paced>>,
    watch: &Watch,
    worker_state: &mut WorkerState<Paced>,
)
    requires { HasNoTurn (identity turn.now) worker_state.old.seat }
    ensures { HasNoTurn (identity turn.now) worker_state.new.seat }
{
    let run = turn.take(rt, &mut worker_state.seat);
    watch.stay();
    turn.release_unchanged(&mut worker_state.seat, run);
}

// The worker has the turn again and again.
fn passes<R: Wait>(
    rt: &R,
    turn: &Turn<Run<Paced>>,
    watch: &Watch,
    worker_state: &mut WorkerState<Paced>,
)
    requires { HasNoTurn (identity turn.now) worker_state.old.seat }
{
    for _ in 0..ROUNDS {
        pass(rt, turn, watch, worker_state);
    }
}

// Each worker in a thread of its own.
fn all_pass<R: Threads + Wait + Sync>(
    rt: &R,
    turn: &Turn<Run<Paced>>,
    watch: &Watch,
    worker_states: &mut [WorkerState<Paced>],
)
    requires { (k : ℕ) (d : WorkerState SharedValue) → slice_get worker_states.old k ≡ Some d → HasNoTurn (identity turn.now) d.seat }
{
    if worker_states.len() == 0 {
        return;
    }
    thread::for_each_mut(
        rt,
        worker_states,
        4,
        &|_: usize, worker_state: &mut WorkerState<Paced>|
            requires { HasNoTurn (identity turn.now) worker_state.now.seat }
        { passes(rt, turn, watch, worker_state) },
    );
}

// How often workers had the turn, and how often two had it.
fn watched<R: Threads + Wait + Sync>(
    rt: &R,
    alloc: Global,
    program: &Program,
    settings: Settings,
) -> Option<(u64, u64)> {
    let watch = Watch::new();
    match opened::<Paced>(alloc, program, settings) {
        Ok((turn, mut worker_states)) => {
            all_pass(rt, &turn, &watch, worker_states.as_mut_slice());
            Some(watch.told())
        }
        Err(_) => None,
    }
}

#[test]
fn four_threads_take_turns(rt: HostRuntime) {
    let settings = Settings::new(Version::Two, 4, 1_000_000, 4096, 8192, 8192);
    let told = match read_program(rt.alloc(), b"fn main\nend") {
        Ok(Ok(program)) => watched(&rt, rt.alloc(), &program, settings),
        _ => None,
    };
    assert!(rt; told == Some((4000, 0)));
}
