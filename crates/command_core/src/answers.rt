// What each command answers to its input.

ghost use Rattle.std.specs.Prelude.{◌≤◌, IfOk, IfErr, Some};
ghost use Rattle.command_line.specs.below.program_make.{size_limit};
ghost use Rattle.command_line.specs.CommandLine.{HasSize};
ghost use Rattle.run_answers.specs.below.command_answers.{AnswersMake, AnswersLine, LeavesLine, LeavesMake, IsWanted};

use crate::run::answer_run;
use command_line::{CommandLine, Options, Settings, make};
use io_traits::Gate;
use run_answers::{
    Answer, CommandStatus, Listed, Wanted, answer_check, answer_image, answer_model, answer_races,
    answer_replay, answer_verify, bytes_alone,
};
use std::alloc::Global;
use std::sync::Wait;
use std::thread::Threads;

// Makes a program, and runs it if that is asked for.
fn answer_make<R: Threads + Wait + Sync, G: Gate>(
    rt: &R,
    alloc: Global,
    seed: u32,
    size: u32,
    run: bool,
    gate: &G,
) -> Result<Answer, Wanted>
    requires some { 1 ≤ size }
    requires at_most { size ≤ size_limit }
    ensures answer { IfOk result (AnswersMake seed size run) }
    ensures wanted { IfErr result (IsWanted (LeavesMake seed size run)) }
{
    let text = make(alloc, seed, size)?;
    if run {
        let options = Options {
            settings: Settings::usual(),
            report: true,
            trace: false,
        };
        return answer_run(rt, alloc, options, text.as_slice(), gate);
    }
    Ok(bytes_alone(alloc, CommandStatus::Done, Listed::from_vec(text)))
}

/// The answer of a command to its input.
pub(crate) fn answer_line<R: Threads + Wait + Sync, G: Gate>(
    rt: &R,
    alloc: Global,
    line: &CommandLine,
    input: &[u8],
    gate: &G,
) -> Result<Answer, Wanted>
    requires { HasSize (Some line.now) }
    ensures answer { IfOk result (AnswersLine line.now input.now) }
    ensures wanted { IfErr result (IsWanted (LeavesLine line.now input.now)) }
{
    match line {
        CommandLine::Check { file: _ } => Ok(answer_check(alloc, input)?),
        CommandLine::Run { file: _, options } => answer_run(rt, alloc, *options, input, gate),
        CommandLine::Replay { file: _, options } => answer_replay(alloc, *options, input),
        CommandLine::Model { file: _, options } => Ok(answer_model(alloc, *options, input)?),
        CommandLine::Races { file: _, settings } => Ok(answer_races(alloc, *settings, input)?),
        CommandLine::Image { file: _, settings } => Ok(answer_image(alloc, *settings, input)?),
        CommandLine::Make { seed, size, run } => {
            answer_make(rt, alloc, *seed, *size, *run, gate)
        }
        CommandLine::Verify { file: _ } => Ok(answer_verify(alloc, input)?),
    }
}
