// Laws of what `hhlog` reports of a run's log.
#![tactic(auto)]

ghost use Rattle.run_verdict_laws.specs.Reported.{LogsReportRaces};

/// In the log of a legal journal of fewer than 500,000,000 steps, by a program whose names fit in lines, `hhlog` finds
/// a race at a location if and only if it is a field's for which two accesses of the run race.
pub fn logs_report_races()
    ensures { LogsReportRaces }
{}
