// What the top call answers.

ghost use Rattle.std.specs.Prelude.{◌≡◌};
ghost use Rattle.command_answers.specs.CommandStatus.{code_of_status, status_of_end, status_of_machine};

use race_report::{End, Entry, Listed, RunEnd};
use shared_tree::Remains;

/// How a call ended.
#[derive(Clone, Copy)]
pub enum CommandStatus {
    /// A run is done; or a program was read or made.
    Done,
    /// The words are no command line.
    Words,
    /// The input isn't a program.
    Source,
    /// A run ended by a trap.
    Trap,
    /// A run ended by a read of a concurrent task's object.
    Entangled,
    /// A run ended because its fuel was used up.
    Fuel,
    /// A run ended because too few chunks were free.
    Pool,
    /// The source failed; nothing was written.
    ReadFault,
    /// The sink failed; a prefix was written.
    WriteFault,
    /// Out of memory; nothing was written.
    NoMemory,
    /// A line of the trace is bad, an entry isn't legal, or the trace stops before an end of its run.
    Trace,
    /// A run has races.
    Races,
    /// An image is refused.
    Image,
}

/// What to write, with its status and what is returned.
#[derive(Drop)]
pub struct Answer {
    pub status: CommandStatus,
    pub bytes: Listed<u8>,
    pub journal: Listed<Entry>,
    pub shared: Option<Remains>,
}

/// What a call returns.
#[derive(Drop)]
pub struct CallResult {
    pub status: CommandStatus,
    /// The run's journal, moved out of the shared value; empty if no run was made.
    pub journal: Listed<Entry>,
    /// What the workers shared; None if no run was made.
    pub shared: Option<Remains>,
}

impl CallResult {
    /// How the call ended; what it returns of a run is dropped.
    pub fn into_status(self) -> CommandStatus
        ensures { result ≡ self.status }
    {
        self.status
    }
}

impl CommandStatus {
    /// The exit status.
    pub fn code(self) -> u8
        ensures { result ≡ code_of_status self }
    {
        match self {
            CommandStatus::Done => 0,
            CommandStatus::Words => 2,
            CommandStatus::Source => 3,
            CommandStatus::Trap => 4,
            CommandStatus::Entangled => 5,
            CommandStatus::Fuel => 6,
            CommandStatus::Pool => 7,
            CommandStatus::ReadFault => 8,
            CommandStatus::WriteFault => 9,
            CommandStatus::NoMemory => 10,
            CommandStatus::Trace => 11,
            CommandStatus::Races => 12,
            CommandStatus::Image => 13,
        }
    }

    // The status of a run, by the end of its machine.
    fn of_machine(end: End) -> CommandStatus
        ensures { result ≡ status_of_machine end }
    {
        match end {
            End::Done => CommandStatus::Done,
            End::Trapped(_, _, _) => CommandStatus::Trap,
            End::Entangled(_, _) => CommandStatus::Entangled,
        }
    }

    /// The status of a run with this end.
    pub fn of_end(end: RunEnd) -> CommandStatus
        ensures { result ≡ status_of_end end }
    {
        match end {
            RunEnd::Machine(end) => CommandStatus::of_machine(end),
            RunEnd::Fuel(_) => CommandStatus::Fuel,
            RunEnd::Pool(_) => CommandStatus::Pool,
        }
    }
}
