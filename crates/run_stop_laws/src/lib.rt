// Laws of the entangled and stale lines that `hhlog` reports of a run's log.
#![tactic(auto)]

ghost use Rattle.run_stop_laws.specs.Stops.{LogsReportStops};

/// In the log of a legal journal of fewer than 500,000,000 steps, by a program whose names fit in lines, `hhlog` finds
/// an entangled read if and only if the run was stopped on one: that of the reader, of a block of the owner's, and no
/// other. It finds no entangled or stale use.
pub fn logs_report_stops()
    ensures { LogsReportStops }
{}
