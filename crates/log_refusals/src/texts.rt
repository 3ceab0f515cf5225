// The lines that refuse a log.

ghost use Rattle.std.specs.Prelude.{◌≡◌, IfOk, [], map, option_map, string_bytes, slice_index_or};
ghost use Rattle.whole_call.specs.Output.{Says};
ghost use Rattle.log_refusals.specs.Texts.{place_text, line_refusal, task_refusal};

use crate::causes::{text_of_fault, text_of_task_cause};
use crate::search::last_line;
use log_form::{LocatedFault, LogPosition};
use log_tasks::TaskFault;
use plain_vec::Listed;
use std::alloc::{AllocError, Global};
use whole_call::{AnswerStatus, Reply};

// The name of a file.
fn name_of(names: &[String], file: usize) -> &str
    ensures { result.now ≡ slice_index_or (map string_bytes names.now) file [] }
{
    match names.get(file) {
        Some(name) => name.as_str(),
        None => "",
    }
}

// Where a line stands.
fn line_text(alloc: Global, names: &[String], at: LogPosition) -> Result<String, AllocError>
    ensures { IfOk result (λ text. string_bytes text ≡ place_text (map string_bytes names.now) (Some at)) }
{
    let name = name_of(names, at.file);
    format!(in alloc; " {name} line {}", at.line)
}

// Where a line stands, if there is one.
fn place_text(
    alloc: Global,
    names: &[String],
    at: Option<LogPosition>,
) -> Result<String, AllocError>
    ensures { IfOk result (λ text. string_bytes text ≡ place_text (map string_bytes names.now) at) }
{
    match at {
        Some(at) => line_text(alloc, names, at),
        None => Ok(String::new(alloc)),
    }
}

// The text that refuses a log for a line.
fn line_refusal_text(
    alloc: Global,
    names: &[String],
    found: LocatedFault,
) -> Result<String, AllocError>
    ensures { IfOk result (λ text. string_bytes text ≡ line_refusal (map string_bytes names.now) found) }
{
    let place = line_text(alloc, names, found.at)?;
    let cause = text_of_fault(found.fault);
    format!(in alloc; "end: log refused{place}: {cause}\n")
}

// The text that refuses a log for a task.
fn task_refusal_text(
    alloc: Global,
    names: &[String],
    texts: &[Listed<u8>],
    fault: TaskFault,
) -> Result<String, AllocError>
    ensures { IfOk result (λ text. string_bytes text ≡ task_refusal (map string_bytes names.now) texts.now fault) }
{
    let place = place_text(alloc, names, last_line(texts, fault.strand))?;
    let cause = text_of_task_cause(fault.cause);
    format!(in alloc;
        "end: log refused{place}: task {} {cause}\n",
        fault.strand.task
    )
}

/// The refusal of a log for a line.
pub fn line_refusal(
    alloc: Global,
    names: &[String],
    found: LocatedFault,
) -> Result<Reply, AllocError>
    ensures { IfOk result (Says AnswerStatus.Trace (line_refusal (map string_bytes names.now) found)) }
{
    let text = line_refusal_text(alloc, names, found)?;
    Ok(Reply::of_text(AnswerStatus::Trace, text))
}

/// The refusal of a log for a task: at the last line that says what its strand at fault does.
pub fn task_refusal(
    alloc: Global,
    names: &[String],
    texts: &[Listed<u8>],
    fault: TaskFault,
) -> Result<Reply, AllocError>
    ensures { IfOk result (Says AnswerStatus.Trace (task_refusal (map string_bytes names.now) texts.now fault)) }
{
    let text = task_refusal_text(alloc, names, texts, fault)?;
    Ok(Reply::of_text(AnswerStatus::Trace, text))
}
