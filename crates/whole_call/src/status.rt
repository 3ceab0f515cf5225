// Statuses.

ghost use Rattle.std.specs.Prelude.{◌≡◌};
ghost use Rattle.whole_call.specs.CallStatus.{code_of_answer, code_of_status};

/// How the command-line arguments, or the input, were answered.
#[derive(Clone, Copy)]
pub enum AnswerStatus {
    /// The request is done.
    Done,
    /// The arguments are no command line.
    Words,
    /// The input isn't a program.
    Source,
    /// A run ended by a trap.
    Trap,
    /// A run ended by a read of a concurrent task's object.
    Entangled,
    /// A run ended because its fuel was used up.
    Fuel,
    /// A run ended because too few chunks were free.
    Pool,
    /// A line of a trace or of a log is bad, an entry isn't legal, or the trace isn't that of a whole run.
    Trace,
    /// A run has races, or accesses for which another schedule may differ.
    Races,
    /// An image is refused.
    Image,
    /// A truncated log is accepted.
    CutOff,
}

/// How a call ended.
#[derive(Clone, Copy)]
pub enum CallStatus {
    /// All of the answer was written.
    Answered(AnswerStatus),
    /// Reading failed; nothing was written.
    ReadFault,
    /// Writing failed; a prefix of the answer was written.
    WriteFault,
    /// Out of memory; nothing was written.
    NoMemory,
}

impl AnswerStatus {
    // The exit status of a call with this answer.
    fn code(self) -> u8
        ensures { result ≡ code_of_answer self }
    {
        match self {
            AnswerStatus::Done => 0,
            AnswerStatus::Words => 2,
            AnswerStatus::Source => 3,
            AnswerStatus::Trap => 4,
            AnswerStatus::Entangled => 5,
            AnswerStatus::Fuel => 6,
            AnswerStatus::Pool => 7,
            AnswerStatus::Trace => 11,
            AnswerStatus::Races => 12,
            AnswerStatus::Image => 13,
            AnswerStatus::CutOff => 14,
        }
    }
}

impl CallStatus {
    /// The exit status.
    pub fn code(self) -> u8
        ensures { result ≡ code_of_status self }
    {
        match self {
            CallStatus::Answered(status) => status.code(),
            CallStatus::ReadFault => 8,
            CallStatus::WriteFault => 9,
            CallStatus::NoMemory => 10,
        }
    }
}
