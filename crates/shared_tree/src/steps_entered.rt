// The entry of a part's fresh steps and its next one, whatever that does.

ghost use Rattle.std.specs.Prelude.{◌≡◌, ◌≤◌, ◌<◌, ◌+◌};
ghost use Rattle.entry_calls.specs.below.run_trace.{private_limit, worker_limit};

use entry_calls::{Entry, Kind};

/// The entry of a number of fresh steps of a task, and its next one.
pub(crate) fn alone_of(worker: u32, task: u32, fresh: u32) -> Entry
    requires worker { worker < worker_limit }
    requires few { fresh ≤ private_limit }
    ensures { result ≡ record { worker = worker; kind = Kind.Ran task (fresh + 1) } }
{
    Entry::new(worker, Kind::Ran(task, fresh + 1))
}
