// The answers of runs.

ghost use Rattle.std.specs.Prelude.{◌≡◌, IfOk, IfErr};
ghost use Rattle.run_answers.specs.below.command_answers.{AnswersProgram, AnswersRun, LeavesRun, IsWanted, remains_of, LeavesPaced};
ghost use Rattle.command_core.specs.Left.{AnswersLeft};

use command_line::Options;
use gc_pacer::Paced;
use io_traits::Gate;
use refusal_lines::{Extras, Refusal};
use run_answers::{Answer, Program, Wanted, amid, answer_ended, extras_of, program_in, refused};
use std::alloc::Global;
use std::sync::Wait;
use std::thread::Threads;
use worker_run::{EntryCalls, run_on_workers};

// The answer from what workers have left. If an allocation has failed or fails here, all that they have left is
// returned.
fn answer_left(alloc: Global, left: Option<Paced>, extras: Extras) -> Result<Answer, Wanted>
    ensures answer { IfOk result (AnswersLeft left extras) }
    ensures wanted { IfErr result (λ w. w ≡ remains_of left) }
{
    let Some(paced) = left else {
        return Err(Wanted::Before);
    };
    match paced.ended() {
        None => Err(amid(paced.into_shared())),
        Some(end) => answer_ended(alloc, paced.into_shared(), end, extras),
    }
}

// Runs a program.
fn answer_program<R: Threads + Wait + Sync, G: Gate>(
    rt: &R,
    alloc: Global,
    program: &Program,
    options: Options,
    gate: &G,
) -> Result<Answer, Wanted>
    ensures answer { IfOk result (AnswersProgram options program.now) }
    ensures wanted { IfErr result (IsWanted (LeavesPaced program.now options.settings)) }
{
    let left = run_on_workers::<R, Paced, G>(rt, alloc, program, options.settings, gate);
    answer_left(alloc, left, extras_of(options))
}

/// Reads a program and runs it.
pub(crate) fn answer_run<R: Threads + Wait + Sync, G: Gate>(
    rt: &R,
    alloc: Global,
    options: Options,
    input: &[u8],
    gate: &G,
) -> Result<Answer, Wanted>
    ensures answer { IfOk result (AnswersRun options input.now) }
    ensures wanted { IfErr result (IsWanted (LeavesRun options input.now)) }
{
    match program_in(alloc, input)? {
        Err(fault) => Ok(refused(alloc, Refusal::Source(fault))?),
        Ok(program) => answer_program(rt, alloc, &program, options, gate),
    }
}
