// Laws of the text of a run's log: it is read back as its lines.
#![tactic(auto)]

ghost use Rattle.log_text_laws.specs.Text.{WrittenLinesAreReadAgain, LogsAreReadAgain, LogsAreToldAgain, LogsAreCutUnlessDone};

/// Each line that is written within the limits is read again as itself.
pub fn written_lines_are_read_again()
    ensures { WrittenLinesAreReadAgain }
{}

/// The log of a journal is read again as its lines, if names and numbers fit in lines.
pub fn logs_are_read_again()
    ensures { LogsAreReadAgain }
{}

/// What happens in its text is what the journal's lines tell.
pub fn logs_are_told_again()
    ensures { LogsAreToldAgain }
{}

/// The log of a legal journal is cut unless its run ended by the return of main.
pub fn logs_are_cut_unless_done()
    ensures { LogsAreCutUnlessDone }
{}
