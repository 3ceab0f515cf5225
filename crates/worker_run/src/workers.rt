//! The workers in threads.
ghost use Rattle.std.specs.Prelude.{◌≡◌, ◌<◌, ◌≤◌, ◌^◌, [], map, IfOk, IfSome, vec_len, vec_capacity};
ghost use Rattle.copied_part_laws.specs.below.hh_lang.{ProgramText};
ghost use Rattle.copied_part_laws.specs.below.run_trace.{SettingsValue};
ghost use Rattle.turn_entries.specs.below.turn_lock.{identity};
ghost use Rattle.worker_run.specs.WorkerStates.{AreAllWorkerStates, AreHands, AreNewWorkerStates, AreOpened, HasOfEach, HasStopped, HaveSeen, HaveStopped, IsWorkerState, SameWorkerState};
ghost use Rattle.worker_run.specs.Outcomes.{IsRunOf, WasGivenBack};
ghost use Rattle.worker_run.specs.Rounds.{AllGoRound, GoesRound};
ghost use Rattle.worker_run.specs.Tasks.{HaveRoot};

use crate::parking::Parker;
use crate::run_context::RunContext;
use crate::signals::Signals;
use crate::worker_state::WorkerState;
use crate::working::work;
use io_traits::Gate;
use std::alloc::{AllocError, Global};
use std::sync::Wait;
use std::thread;
use std::thread::Threads;
use steal_scheduler::{Deques, Hand};
use turn_entries::{EntryCalls, Next, Program, Run, Seat, Settings, Turn};

/// Each worker works in a thread of its own, until the run is over.
pub fn all_work<R: Threads + Wait + Sync, P: EntryCalls + Drop + Send, G: Gate>(
    rt: &R,
    shop: &RunContext<P, G>,
    worker_states: &mut [WorkerState<P>],
)
    requires all { (s : SettingsValue) × AreAllWorkerStates (identity shop.now.turn.now) shop.now.program.now s worker_states.old }
    ensures all { (s : SettingsValue) → AreAllWorkerStates (identity shop.now.turn.now) shop.now.program.now s worker_states.old → AreAllWorkerStates (identity shop.now.turn.now) shop.now.program.now s worker_states.new }
    ensures rounds { AllGoRound P.value shop.now.program.now worker_states.old worker_states.new }
    ensures over { HaveStopped P.value worker_states.new }
{
    let threads = worker_states.len();
    if threads == 0 {
        return;
    }
    thread::for_each_mut(
        rt,
        worker_states,
        threads,
        &|_: usize, worker_state: &mut WorkerState<P>|
            requires { IsWorkerState (identity shop.now.turn.now) shop.now.program.now worker_state.now }
            ensures { IsWorkerState (identity shop.entry.now.turn.now) shop.entry.now.program.now worker_state.exit.now × SameWorkerState worker_state.entry.now worker_state.exit.now × GoesRound P.value shop.entry.now.program.now worker_state.entry.now Next.Idle worker_state.exit.now Next.Stop × HasStopped P.value worker_state.exit.now }
        { work(rt, shop, worker_state) },
    );
}

// A worker state for each seat and hand.
fn worker_states_of<P: EntryCalls>(
    alloc: Global,
    settings: Settings,
    mut seats: Vec<Seat<Run<P>>>,
    mut hands: Vec<Hand>,
) -> Result<Vec<WorkerState<P>>, AllocError>
    requires hands { AreHands (vec_len seats) hands.items }
    requires workers { vec_len seats ≡ settings.workers }
    requires few { settings.workers < 2 ^ 32 }
    ensures seats { IfOk result (λ v. map (λ d. d.seat) v.items ≡ seats.items) }
    ensures hands { IfOk result (λ v. map (λ d. d.hand) v.items ≡ hands.items) }
    ensures new { IfOk result (λ v. AreNewWorkerStates settings v.items) }
{
    let mut worker_states = Vec::new(alloc);
    let mut worker = 0;
    while !seats.is_empty() {
        let seat = seats.remove(0);
        let hand = hands.remove(0);
        let signals = Signals::new();
        worker_states.push(WorkerState {
            seat,
            hand,
            worker,
            alloc,
            settings,
            given: 0,
            signals,
            apart: [0; 16],
        })?;
        worker += 1;
    }
    Ok(worker_states)
}

// The seats of the workers.
fn seats_of<P: EntryCalls>(
    mut worker_states: Vec<WorkerState<P>>,
    mut seats: Vec<Seat<Run<P>>>,
) -> Vec<Seat<Run<P>>>
    requires none { seats.items ≡ [] }
    requires room { vec_len worker_states ≤ vec_capacity seats }
    ensures { result.items ≡ map (λ d. d.seat) worker_states.items }
{
    while !worker_states.is_empty() {
        let WorkerState { seat, .. } = worker_states.remove(0);
        seats.push_reserved(seat);
    }
    seats
}

/// Ends the turn: its value has for each worker exactly the entries that it gave back. `seats` has capacity for all.
pub fn close<P: EntryCalls + Drop>(
    turn: Turn<Run<P>>,
    worker_states: Vec<WorkerState<P>>,
    seats: Vec<Seat<Run<P>>>,
) -> P
    requires all { (p : ProgramText) × (s : SettingsValue) × AreAllWorkerStates (identity turn) p s worker_states.items }
    requires none { seats.items ≡ [] }
    requires room { vec_len worker_states ≤ vec_capacity seats }
    ensures of_each { HasOfEach (P.value result).journal.items worker_states.items }
    ensures seen { HaveSeen (P.value result).journal.items worker_states.items }
    ensures setup { (p : ProgramText) (s : SettingsValue) → AreAllWorkerStates (identity turn) p s worker_states.items → ((P.value result).program ≡ p) × ((P.value result).settings ≡ s) }
{
    let Run { paced, .. } = turn.close(seats_of(worker_states, seats));
    paced
}

// The hands of `workers` workers. The first has put the root.
fn new_hands(alloc: Global, workers: u32) -> Result<Vec<Hand>, AllocError>
    requires { 0 < workers }
    ensures { IfOk result (λ hands. HaveRoot workers hands.items) }
{
    let mut hands = Deques::new(alloc, workers)?;
    match hands[0].put(0) {
        Ok(()) => Ok(hands),
        Err(_) => Err(AllocError),
    }
}

/// The turn of the value before its first entry, and the states of all workers. The first one's hand has put the root.
pub fn opened<P: EntryCalls + Drop>(
    alloc: Global,
    program: &Program,
    settings: Settings,
) -> Result<(Turn<Run<P>>, Vec<WorkerState<P>>), AllocError>
    ensures all { IfOk result (λ t. AreAllWorkerStates (identity t.0) program.now settings t.1.items) }
    ensures new { IfOk result (λ t. AreOpened settings t.1.items) }
{
    let paced = P::new(alloc, program, settings)?;
    let workers = settings.workers();
    let (turn, seats) = Turn::new(alloc, Run::new(paced), workers)?;
    let hands = new_hands(alloc, workers)?;
    let worker_states = worker_states_of(alloc, settings, seats, hands)?;
    Ok((turn, worker_states))
}

// The turn and the worker states, and an empty list with capacity for all seats.
fn with_seats<P: EntryCalls + Drop>(
    alloc: Global,
    program: &Program,
    settings: Settings,
) -> Result<(Turn<Run<P>>, Vec<WorkerState<P>>, Vec<Seat<Run<P>>>), AllocError>
    ensures all { IfOk result (λ t. AreAllWorkerStates (identity t.0) program.now settings t.1.items) }
    ensures new { IfOk result (λ t. AreOpened settings t.1.items) }
    ensures none { IfOk result (λ t. t.2.items ≡ []) }
    ensures room { IfOk result (λ t. vec_len t.1 ≤ vec_capacity t.2) }
{
    let (turn, worker_states) = opened(alloc, program, settings)?;
    let seats = Vec::with_capacity(alloc, worker_states.len())?;
    Ok((turn, worker_states, seats))
}

// All workers work until the run is over; the shared value is returned whatever happened, also after a failed
// allocation.
fn run_all<R: Threads + Wait + Sync, P: EntryCalls + Drop + Send, G: Gate>(
    rt: &R,
    turn: Turn<Run<P>>,
    mut worker_states: Vec<WorkerState<P>>,
    seats: Vec<Seat<Run<P>>>,
    program: &Program,
    gate: &G,
) -> P
    requires all { (s : SettingsValue) × AreAllWorkerStates (identity turn) program.now s worker_states.items }
    requires none { seats.items ≡ [] }
    requires room { vec_len worker_states ≤ vec_capacity seats }
    ensures run { (s : SettingsValue) → AreAllWorkerStates (identity turn) program.now s worker_states.items → IsRunOf program.now s (P.value result) }
    ensures gave { (s : SettingsValue) → AreAllWorkerStates (identity turn) program.now s worker_states.items → AreOpened s worker_states.items → WasGivenBack P.value program.now s (P.value result).journal.items }
{
    let parker = Parker::new();
    let shop = RunContext {
        turn: &turn,
        parker: &parker,
        gate,
        program,
    };
    all_work(rt, &shop, worker_states.as_mut_slice());
    let shared = close(turn, worker_states, seats);
    shared.stands();
    shared
}

/// Runs a program with workers in threads: its journal is legal and paced, its order is that of the turns, and for each
/// worker it has exactly the entries that this one gave back. Returns the shared value, which says how the run has
/// ended; None only if an allocation failed before the first entry.
pub fn run_on_workers<R: Threads + Wait + Sync, P: EntryCalls + Drop + Send, G: Gate>(
    rt: &R,
    alloc: Global,
    program: &Program,
    settings: Settings,
    gate: &G,
) -> Option<P>
    ensures run { IfSome result (λ w. IsRunOf program.now settings (P.value w)) }
    ensures gave { IfSome result (λ w. WasGivenBack P.value program.now settings (P.value w).journal.items) }
{
    let Ok((turn, worker_states, seats)) = with_seats::<P>(alloc, program, settings) else {
        return None;
    };
    Some(run_all(rt, turn, worker_states, seats, program, gate))
}
