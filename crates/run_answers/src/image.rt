// The answer of `image`.

ghost use Rattle.std.specs.Prelude.{List, ℕ, IfOk};
ghost use Rattle.race_report.specs.below.run_ledger.{refused_as_run};
ghost use Rattle.command_answers.specs.Answers.{AnswersImaging, AnswersTrace, IsImageOf, IsImaged, IsText, WhereWhole};

use command_answers::{Answer, CommandStatus, bytes_alone, refused, trace_short};
use journal_replay::{ReplayStop, replay};
use race_report::{Listed, Settings};
use refusal_lines::{OrNoMemory, Refusal, TraceInput, read_trace_input};
use run_statistics::{Counted, Shared};
use shared_image::image_text;
use std::alloc::{AllocError, Global};

// The answer for the remaining heaps.
fn answer_drawn(alloc: Global, shared: &Shared) -> Result<Answer, AllocError>
    ensures { IfOk result (λ a. (image : List ℕ) × IsImageOf shared.now image × IsText CommandStatus.Done image a) }
{
    let text = image_text(alloc, shared)?;
    Ok(bytes_alone(alloc, CommandStatus::Done, Listed::from_vec(text)))
}

// The answer once all entries are made.
fn answer_made(alloc: Global, shared: &Shared) -> Result<Answer, AllocError>
    ensures { IfOk result (WhereWhole (IsImaged shared.now.program shared.now.settings shared.now.journal.items) (refused_as_run shared.now.program shared.now.settings shared.now.journal.items)) }
{
    shared.stands();
    match shared.ended() {
        None => trace_short(alloc, shared.journal()),
        Some(_) => answer_drawn(alloc, shared),
    }
}

// Makes the entries of a trace.
fn answer_trace(alloc: Global, settings: Settings, read: &TraceInput) -> Result<Answer, AllocError>
    ensures { IfOk result (AnswersTrace IsImaged settings read.now) }
{
    let TraceInput { program, trace } = read;
    let settings = settings.with_version(trace.version);
    let replayed = replay::<Counted>(alloc, program, settings, trace.entries.as_slice())?;
    match replayed {
        Ok(world) => {
            let counted = world.shared();
            let answer = answer_made(alloc, counted.shared());
            drop(world);
            answer
        }
        Err(ReplayStop::RefusedAt(entry)) => refused(alloc, Refusal::Entry(entry)),
        Err(ReplayStop::NoMemory(world)) => {
            drop(world);
            Err(AllocError)
        }
    }
}

/// Reads a program with a trace, makes its entries, and writes the heaps that they leave.
pub fn answer_image(alloc: Global, settings: Settings, input: &[u8]) -> Result<Answer, AllocError>
    ensures { IfOk result (AnswersImaging settings input.now) }
{
    match read_trace_input(alloc, input) {
        Ok(read) => answer_trace(alloc, settings, &read),
        Err(OrNoMemory::Refused(fault)) => refused(alloc, Refusal::of_input(fault)),
        Err(OrNoMemory::NoMemory) => Err(AllocError),
    }
}
