// The answer of `replay`.

ghost use Rattle.std.specs.Prelude.{◌≡◌, IfOk, IfErr};
ghost use Rattle.race_report.specs.below.run_ledger.{refused_as_run};
ghost use Rattle.journal_replay.specs.below.core_invariant.{IsSharedValue, without_journal};
ghost use Rattle.made_program_laws.specs.below.trace_input.{settings_for};
ghost use Rattle.command_answers.specs.Answers.{AnswersReplay, AnswersTrace, IsReplay, LeavesReplay, Refuses, WhereWhole, short_of};
ghost use Rattle.command_answers.specs.Delivery.{IsWanted};
ghost use Rattle.command_answers.specs.Runs.{IsReplayedRun, LeavesPrefix};
ghost use Rattle.run_answers.specs.Replayed.{AnswersReplayed, StandsReplayed, remains_by};

use crate::ended::{amid, answer_ended};
use command_answers::{Answer, Wanted, extras_of, refused, trace_short};
use command_line::Options;
use journal_replay::{ReplayStop, World, replay};
use refusal_lines::{Extras, OrNoMemory, Refusal, TraceInput, read_trace_input};
use run_statistics::{Counted, LegalCalls};
use std::alloc::{AllocError, Global};

// The answer once all entries are made, if the run has no end.
fn answer_short(alloc: Global, shared: Counted) -> Result<Answer, Wanted>
    ensures answer { IfOk result (Refuses (Refusal.Entry (short_of shared.journal.items))) }
    ensures wanted { IfErr result (λ w. w ≡ Wanted.Amid shared.journal.items (without_journal shared)) }
{
    match trace_short(alloc, shared.shared().journal()) {
        Ok(answer) => Ok(answer),
        Err(AllocError) => Err(amid(shared)),
    }
}

// The answer once all entries are made.
fn answer_made(alloc: Global, shared: Counted, extras: Extras) -> Result<Answer, Wanted>
    ensures answer { IfOk result (WhereWhole (IsReplayedRun shared.program shared.settings extras shared.journal.items) (refused_as_run shared.program shared.settings shared.journal.items)) }
    ensures wanted { IfErr result (λ w. w ≡ Wanted.Amid shared.journal.items (without_journal shared)) }
    ensures stands { IsSharedValue shared }
{
    shared.stands();
    match shared.shared().ended() {
        None => answer_short(alloc, shared),
        Some(end) => answer_ended(alloc, shared, end, extras),
    }
}

// The answer at some point of a replay. If memory ran out, what the replay leaves is returned.
fn answer_replayed(
    alloc: Global,
    replayed: Result<World<Counted>, ReplayStop<World<Counted>>>,
    extras: Extras,
) -> Result<Answer, Wanted>
    ensures answer { IfOk result (AnswersReplayed extras replayed) }
    ensures wanted { IfErr result (λ w. w ≡ remains_by replayed) }
    ensures stands { StandsReplayed replayed }
{
    match replayed {
        Ok(world) => answer_made(alloc, world.into_shared(), extras),
        Err(ReplayStop::RefusedAt(entry)) => Ok(refused(alloc, Refusal::Entry(entry))?),
        Err(ReplayStop::NoMemory(world)) => Err(amid(world.into_shared())),
    }
}

// Makes the entries of a trace.
fn answer_trace(alloc: Global, options: Options, read: &TraceInput) -> Result<Answer, Wanted>
    ensures answer { IfOk result (AnswersTrace (IsReplay options) options.settings read.now) }
    ensures wanted { IfErr result (IsWanted (LeavesPrefix read.now.program (settings_for options.settings read.now) read.now.trace.entries)) }
{
    let TraceInput { program, trace } = read;
    let settings = options.settings.with_version(trace.version);
    let replayed = replay::<Counted>(alloc, program, settings, trace.entries.as_slice())?;
    answer_replayed(alloc, replayed, extras_of(options))
}

/// Reads a program with a trace, and makes its entries.
pub fn answer_replay(alloc: Global, options: Options, input: &[u8]) -> Result<Answer, Wanted>
    ensures answer { IfOk result (AnswersReplay options input.now) }
    ensures wanted { IfErr result (IsWanted (LeavesReplay options input.now)) }
{
    match read_trace_input(alloc, input) {
        Ok(read) => answer_trace(alloc, options, &read),
        Err(OrNoMemory::Refused(fault)) => Ok(refused(alloc, Refusal::of_input(fault))?),
        Err(OrNoMemory::NoMemory) => Err(Wanted::Before),
    }
}
