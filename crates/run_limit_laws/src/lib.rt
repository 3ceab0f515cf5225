// Laws of the numbers in a run's log: they are within the limits of logs, and no block is born twice.
#![tactic(auto)]

ghost use Rattle.run_limit_laws.specs.Limits.{LogsAreWithinLimits, LogsTellRuns};
ghost use Rattle.run_limit_laws.specs.Births.{BlocksAreBornOnce};

/// In the log of a legal journal of fewer than 500,000,000 steps, if the program's names and numbers fit in lines, each
/// line is within the limits, and opens a strand or is an act of the open one.
pub fn logs_are_within_limits()
    ensures { LogsAreWithinLimits }
{}

/// So its text tells what the journal's lines tell, and is cut unless the run ended by the return of main.
pub fn logs_tell_runs()
    ensures { LogsTellRuns }
{}

/// In the log of a legal journal of at most 10^9 steps each block is born once.
pub fn blocks_are_born_once()
    ensures { BlocksAreBornOnce }
{}
