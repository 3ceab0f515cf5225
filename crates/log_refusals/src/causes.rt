// Causes in words.

ghost use Rattle.std.specs.Prelude.{◌≡◌};
ghost use Rattle.log_refusals.specs.Causes.{text_of_cause, text_of_fault, text_of_task_cause};

use log_form::LogFault;
use log_lines::LogCause;
use log_tasks::TaskCause;

// Why a text is no line.
fn text_of_cause(cause: LogCause) -> &'static str
    ensures { result.now ≡ text_of_cause cause }
{
    match cause {
        LogCause::BadWord => "bad word",
        LogCause::BadNumber => "bad number",
        LogCause::WrongCount => "wrong count of words",
        LogCause::OverLimit => "over a limit",
        LogCause::RunsOverlap => "runs overlap",
        LogCause::UnknownVersion => "unknown version",
    }
}

/// Why a line is refused.
pub(crate) fn text_of_fault(fault: LogFault) -> &'static str
    ensures { result.now ≡ text_of_fault fault }
{
    match fault {
        LogFault::NoLine(cause) => text_of_cause(cause),
        LogFault::NoVersion => "no version",
        LogFault::AfterEnd => "after the end",
        LogFault::NoStrand => "no strand is open",
        LogFault::StrandEnded => "strand has ended",
        LogFault::SpawnedTwice => "task spawned twice",
        LogFault::BornTwice => "block born twice",
        LogFault::ReleasedTwice => "block released twice",
    }
}

/// What is wrong with a task.
pub(crate) fn text_of_task_cause(cause: TaskCause) -> &'static str
    ensures { result.now ≡ text_of_task_cause cause }
{
    match cause {
        TaskCause::JoinsNoOpenChild => "joins no open child of its own",
        TaskCause::HasNoEnd => "has no end",
        TaskCause::LeavesUnjoined => "leaves children unjoined",
        TaskCause::IsUnreached => "is spawned by no task that the root leads to",
        TaskCause::GoesOnAfterEnd => "goes on after its end",
    }
}
