// Laws of lines.

ghost use Rattle.log_lines.specs.Laws.{LinesAreWithinLimits, LinesAreReadAgain};

/// The numbers of each line that is read are within the limits.
pub fn lines_are_within_limits()
    ensures { LinesAreWithinLimits }
{}

/// A line within the limits that is written and read again is that line.
pub fn lines_are_read_again()
    ensures { LinesAreReadAgain }
{}
