// Laws of the size of logs: which are never too large to be reported.
#![tactic(auto)]

ghost use Rattle.log_size_laws.specs.Small.{SmallLogsAreNotTooLarge};

/// A log of few acts with little work, of few tasks, whose accesses have one location each and whose blocks have few
/// words, isn't too large: only a failed allocation keeps it from being reported.
pub fn small_logs_are_not_too_large()
    ensures { SmallLogsAreNotTooLarge }
{}
