// Laws of what `hhlog` answers of a run's log: it reports it, and the report tells the run.
#![tactic(auto)]

ghost use Rattle.run_answer_laws.specs.Answers.{RunLogsAreAccepted, RunLogsAreReported};
ghost use Rattle.run_answer_laws.specs.Reports.{ReportsTellRuns};

/// If the program's names and numbers fit in lines, the log of a legal journal of fewer than 500,000,000 steps is
/// refused for no line and no task: it is reported, unless it is too large.
pub fn run_logs_are_accepted()
    ensures { RunLogsAreAccepted }
{}

/// If each entry of the journal is one that a trace may have, the log isn't too large: the answer is its report, unless
/// an allocation fails and there is none.
pub fn run_logs_are_reported()
    ensures { RunLogsAreReported }
{}

/// So whatever `hhlog` answers is a report of races at just the locations of fields for which accesses of the run race,
/// of one entangled read if and only if the run was stopped on one, of no entangled or stale use, and of a unit of work
/// for each step.
pub fn reports_tell_runs()
    ensures { ReportsTellRuns }
{}
