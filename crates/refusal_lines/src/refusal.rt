// Refusals.

ghost use Rattle.std.specs.Prelude.{◌≡◌};
ghost use Rattle.refusal_lines.specs.Refusals.{refusal_of};

use image_check::ImageFault;
use program_reader::TextFault;
use run_ledger::RefusedAt;
use trace_input::InputFault;

/// Why the command-line arguments or the input are refused.
#[derive(Clone, Copy)]
pub enum Refusal {
    /// The arguments are no command.
    Words,
    /// The text isn't a program.
    Source(TextFault),
    /// This line of the trace is bad.
    Line(u32),
    /// The trace isn't that of a whole run: an entry is refused, or it has no end.
    Entry(RefusedAt),
    /// The text isn't an image.
    Image(ImageFault),
}

impl Refusal {
    /// The refusal of an input that isn't a program with a trace.
    pub fn of_input(fault: InputFault) -> Refusal
        ensures { result ≡ refusal_of fault }
    {
        match fault {
            InputFault::Source(refused) => Refusal::Source(refused),
            InputFault::BadLine(line) => Refusal::Line(line),
        }
    }
}
