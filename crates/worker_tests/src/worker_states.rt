// Two worker states in one thread: the order of their turns is given.
ghost use Rattle.std.specs.Prelude.{IfSome};
ghost use Rattle.atomic_table.specs.Seated.{TableId};
ghost use Rattle.journal_replay.specs.below.hh_lang.{ProgramText};
ghost use Rattle.journal_replay.specs.below.run_trace.{SettingsValue};
ghost use Rattle.worker_run.specs.below.turn_lock.{view, HasNoTurn, identity};
ghost use Rattle.worker_run.specs.WorkerStates.{AreAllWorkerStates, ChangesHand, FewThefts, IsWorkerState};
ghost use Rattle.worker_run.specs.below.turn_entries.{ComesWith, GoesWith};

use gc_pacer::Paced;
use journal_replay::{
    EmptyGate, End, Entry, Kind, Program, RunEnd, Settings, Version, World, replay,
};
use run_statistics::{Counted, Shared, held};
use std::alloc::Global;
use std::sync::Wait;
use trace_input::read_trace_input;
use worker_run::{
    BlockSource, Next, Parker, Ready, Run, RunContext, Turn, WorkerState, opened, prepare,
    take_turn,
};

const COLLECTS: &str =
    "fn left\nset i0 0\nset i1 14\nnewm r1 i0 i1\nputr r0 i0 r1\nnil r1\nnewm r2 i0 i1\nret\nend\nfn right\nset i0 0\nnil r1\nputr r0 i0 r1\nret\nend\nfn main\nset i0 1\nset i1 0\nnewm r0 i0 i1\npar left right\nset i2 0\ngetr r3 r0 i2\nnil r4\nsame i3 r3 r4\nout i3\nret\nend\ntrace 1\n0 took 0\n0 ran 0 2\n0 chunk 0\n0 ran 0 2\n0 took 1\n1 took 2\n0 ran 1 2\n0 chunk 1\n0 ran 1 2\n0 ran 1 1\n0 begin 1\n1 ran 2 3\n0 end 1 1 1 16\n0 ran 1 2\n1 ran 2 1\n1 took 0\n1 ran 0 5\n1 ran 0 1\n";

// The states of two workers.
fn two_worker_states(
    mut worker_states: Vec<WorkerState<Paced>>,
) -> Option<(WorkerState<Paced>, WorkerState<Paced>)>
    ensures { (z : TableId) (p : ProgramText) (s : SettingsValue) → AreAllWorkerStates z p s worker_states.items → IfSome result (λ d. IsWorkerState z p d.0 × IsWorkerState z p d.1) }
{
    if worker_states.len() != 2 {
        return None;
    }
    let first = worker_states.remove(0);
    let second = worker_states.remove(0);
    Some((first, second))
}

// The worker takes its steps, or copies, while the other one has the turn.
fn makes_ready<R: Wait>(
    rt: &R,
    shop: &RunContext<Paced, EmptyGate>,
    other: &mut WorkerState<Paced>,
    worker_state: &mut WorkerState<Paced>,
    next: Next,
) -> Option<Ready>
    requires other { IsWorkerState (identity shop.now.turn.now) shop.now.program.now other.old }
    requires goes { GoesWith shop.now.program.now worker_state.old.worker (view worker_state.old.seat).part next }
    requires few { FewThefts worker_state.old }
    ensures other { IsWorkerState (identity shop.now.turn.now) shop.now.program.now other.new }
    ensures still { (n : Next) → GoesWith shop.now.program.now other.old.worker (view other.old.seat).part n → GoesWith shop.now.program.now other.new.worker (view other.new.seat).part n }
    ensures hand { ChangesHand worker_state.old worker_state.new }
    ensures comes { IfSome result (ComesWith shop.now.program.now worker_state.old.worker (view worker_state.old.seat).part) }
{
    let run = shop.turn.take(rt, &mut other.seat);
    let ready = prepare(rt, shop, worker_state, next);
    shop.turn.release_unchanged(&mut other.seat, run);
    ready
}

// The worker comes for its turn, and gets it; one that has stopped stays so.
fn goes_on<R: Wait>(
    rt: &R,
    shop: &RunContext<Paced, EmptyGate>,
    other: &mut WorkerState<Paced>,
    worker_state: &mut WorkerState<Paced>,
    next: Next,
) -> Next
    requires other { IsWorkerState (identity shop.now.turn.now) shop.now.program.now other.old }
    requires worker_state { IsWorkerState (identity shop.now.turn.now) shop.now.program.now worker_state.old }
    requires goes { GoesWith shop.now.program.now worker_state.old.worker (view worker_state.old.seat).part next }
    ensures other { IsWorkerState (identity shop.now.turn.now) shop.now.program.now other.new }
    ensures still { (n : Next) → GoesWith shop.now.program.now other.old.worker (view other.old.seat).part n → GoesWith shop.now.program.now other.new.worker (view other.new.seat).part n }
    ensures worker_state { IsWorkerState (identity shop.now.turn.now) shop.now.program.now worker_state.new }
    ensures goes { GoesWith shop.now.program.now worker_state.new.worker (view worker_state.new.seat).part result }
{
    match makes_ready(rt, shop, other, worker_state, next) {
        Some(ready) => {
            let mut blocks = BlockSource::new(worker_state.alloc);
            take_turn(rt, shop, worker_state, &mut blocks, ready)
        }
        None => Next::Stop,
    }
}

// Each entry's worker takes a turn.
fn drive<R: Wait>(
    rt: &R,
    shop: &RunContext<Paced, EmptyGate>,
    first: &mut WorkerState<Paced>,
    second: &mut WorkerState<Paced>,
    entries: &[Entry],
)
    requires first { IsWorkerState (identity shop.now.turn.now) shop.now.program.now first.old }
    requires second { IsWorkerState (identity shop.now.turn.now) shop.now.program.now second.old }
    ensures first { IsWorkerState (identity shop.now.turn.now) shop.now.program.now first.new }
    ensures second { IsWorkerState (identity shop.now.turn.now) shop.now.program.now second.new }
{
    let mut to_first = Next::Idle;
    let mut to_second = Next::Idle;
    for entry in entries {
        if entry.worker() == 0 {
            to_first = goes_on(rt, shop, second, first, to_first);
        } else {
            to_second = goes_on(rt, shop, first, second, to_second);
        }
    }
}

// Whether a shared value has exactly these entries, and their result: what is written, the steps and the chunks in use.
fn is_told(shared: &Shared, entries: &[Entry]) -> bool {
    shared.journal() == entries
        && shared.outputs() == [1].as_slice()
        && shared.steps() == 21
        && shared.in_use() == 2
}

// Whether the run's entries are legal, and how their replay ends.
fn replayed(
    alloc: Global,
    program: &Program,
    settings: Settings,
    entries: &[Entry],
) -> Option<RunEnd> {
    match replay::<Counted>(alloc, program, settings, entries) {
        Ok(Ok(world)) => {
            let shared = world.shared().shared();
            if is_told(shared, entries) {
                shared.ended()
            } else {
                None
            }
        }
        Ok(Err(_)) | Err(_) => None,
    }
}

const DONE: Option<RunEnd> = Some(RunEnd::Machine(End::Done));

// Whether a shared value has exactly these entries, which are legal, what the program writes, and its end.
fn is_left(
    alloc: Global,
    program: &Program,
    settings: Settings,
    entries: &[Entry],
    shared: &Shared,
) -> bool {
    shared.journal() == entries
        && shared.outputs() == [1].as_slice()
        && shared.ended() == DONE
        && held(shared) == (3, 35)
        && replayed(alloc, program, settings, shared.journal()) == DONE
}

// The number of entries, as a worker without the turn sees it.
fn looked(turn: &Turn<Run<Paced>>, worker_state: &mut WorkerState<Paced>) -> u64
    requires { HasNoTurn (identity turn.now) worker_state.old.seat }
    ensures worker_state { (p : ProgramText) → IsWorkerState (identity turn.now) p worker_state.old → IsWorkerState (identity turn.now) p worker_state.new }
{
    turn.look(&mut worker_state.seat)
}

// What both workers see before the first entry and after it.
fn looks<R: Wait>(
    rt: &R,
    turn: &Turn<Run<Paced>>,
    program: &Program,
    first: &mut WorkerState<Paced>,
    second: &mut WorkerState<Paced>,
) -> (u64, u64, u64, u64)
    requires first { IsWorkerState (identity turn.now) program.now first.old }
    requires second { IsWorkerState (identity turn.now) program.now second.old }
    ensures first { IsWorkerState (identity turn.now) program.now first.new }
    ensures second { IsWorkerState (identity turn.now) program.now second.new }
{
    let parker = Parker::new();
    let shop = RunContext {
        turn,
        parker: &parker,
        gate: &EmptyGate,
        program,
    };
    let before = (looked(turn, first), looked(turn, second));
    let _ = goes_on(rt, &shop, second, first, Next::Idle);
    let after = (looked(turn, first), looked(turn, second));
    (before.0, before.1, after.0, after.1)
}

// Whether two workers see each entry once it is made.
fn see_entries<R: Wait>(
    rt: &R,
    turn: &Turn<Run<Paced>>,
    program: &Program,
    worker_states: Vec<WorkerState<Paced>>,
) -> bool
    requires { (s : SettingsValue) × AreAllWorkerStates (identity turn.now) program.now s worker_states.items }
{
    match two_worker_states(worker_states) {
        Some((mut first, mut second)) => {
            looks(rt, turn, program, &mut first, &mut second) == (0, 0, 1, 1)
        }
        None => false,
    }
}

// Whether the worker states take the turns of the trace and leave the expected value, and a look then returns the
// number of entries.
fn leave_all<R: Wait>(
    rt: &R,
    alloc: Global,
    turn: &Turn<Run<Paced>>,
    program: &Program,
    settings: Settings,
    entries: &[Entry],
    first: &mut WorkerState<Paced>,
    second: &mut WorkerState<Paced>,
) -> bool
    requires first { IsWorkerState (identity turn.now) program.now first.old }
    requires second { IsWorkerState (identity turn.now) program.now second.old }
{
    let parker = Parker::new();
    let shop = RunContext {
        turn,
        parker: &parker,
        gate: &EmptyGate,
        program,
    };
    drive(rt, &shop, first, second, entries);
    let run = turn.take(rt, &mut first.seat);
    let looked = turn.look(&mut second.seat);
    let shared = run.paced.into_shared();
    let left = is_left(alloc, program, settings, entries, shared.shared());
    left && looked == entries.len() as u64
}

// The same if there are two worker states.
fn at_two<R: Wait>(
    rt: &R,
    alloc: Global,
    turn: &Turn<Run<Paced>>,
    program: &Program,
    settings: Settings,
    entries: &[Entry],
    worker_states: Vec<WorkerState<Paced>>,
) -> bool
    requires { AreAllWorkerStates (identity turn.now) program.now settings worker_states.items }
{
    match two_worker_states(worker_states) {
        Some((mut first, mut second)) => leave_all(
            rt,
            alloc,
            turn,
            program,
            settings,
            entries,
            &mut first,
            &mut second,
        ),
        None => false,
    }
}

// The same for new worker states.
fn at_worker_states<R: Wait>(
    rt: &R,
    alloc: Global,
    program: &Program,
    settings: Settings,
    entries: &[Entry],
) -> bool {
    match opened::<Paced>(alloc, program, settings) {
        Ok((turn, worker_states)) => at_two(
            rt,
            alloc,
            &turn,
            program,
            settings,
            entries,
            worker_states,
        ),
        Err(_) => false,
    }
}

#[test]
fn two_worker_states_in_one_thread(rt: HostRuntime) {
    let settings = Settings::new(Version::One, 2, 1_000_000, 4096, 16, 8192);
    let left = match read_trace_input(rt.alloc(), COLLECTS.as_bytes()) {
        Ok(input) => {
            let entries = input.trace.entries.as_slice();
            at_worker_states(&rt, rt.alloc(), &input.program, settings, entries)
        }
        Err(_) => false,
    };
    assert!(rt; left);
}

// Whether two workers with new states see each entry once it is made.
fn see_at_worker_states<R: Wait>(
    rt: &R,
    alloc: Global,
    program: &Program,
    settings: Settings,
) -> bool {
    match opened::<Paced>(alloc, program, settings) {
        Ok((turn, worker_states)) => see_entries(rt, &turn, program, worker_states),
        Err(_) => false,
    }
}

#[test]
fn two_seats_look(rt: HostRuntime) {
    let settings = Settings::new(Version::One, 2, 1_000_000, 4096, 16, 8192);
    let seen = match read_trace_input(rt.alloc(), COLLECTS.as_bytes()) {
        Ok(input) => see_at_worker_states(&rt, rt.alloc(), &input.program, settings),
        Err(_) => false,
    };
    assert!(rt; seen);
}

// Whether a world has stopped at first, whether the end for spent fuel is refused there, and whether it has stopped
// then.
fn stops(mut world: World<Counted>) -> (bool, bool, bool) {
    let before = world.has_stopped();
    let refused = world.apply(Entry::new(0, Kind::Fuel)).is_err();
    (before, refused, world.has_stopped())
}

#[test]
fn a_world_stops_at_a_refused_entry(rt: HostRuntime) {
    let settings = Settings::new(Version::One, 2, 1_000_000, 4096, 16, 8192);
    let told = match read_trace_input(rt.alloc(), COLLECTS.as_bytes()) {
        Ok(input) => match World::<Counted>::start(rt.alloc(), &input.program, settings) {
            Ok(world) => Some(stops(world)),
            Err(_) => None,
        },
        Err(_) => None,
    };
    assert!(rt; told == Some((false, true, true)));
}
