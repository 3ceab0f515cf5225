// What options ask for.

ghost use Rattle.std.specs.Prelude.{◌≡◌};
ghost use Rattle.command_answers.specs.Answers.{extras_of};

use command_line::Options;
use refusal_lines::Extras;

/// What is written besides the outputs and the end line.
pub fn extras_of(options: Options) -> Extras
    ensures { result ≡ extras_of options }
{
    Extras {
        report: options.report,
        trace: options.trace,
    }
}
