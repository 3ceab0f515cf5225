// Laws of the size of a run's log: it is small.
#![tactic(auto)]

ghost use Rattle.run_size_laws.specs.RunSizes.{RunLogsAreSmall};

/// The log of a legal journal of fewer than 500,000,000 steps, each of whose entries is one that a trace may have, is
/// small: it tells few acts of few tasks, its accesses have one location each, and its blocks few words. It has a unit
/// of work for each step.
pub fn run_logs_are_small()
    ensures { RunLogsAreSmall }
{}
