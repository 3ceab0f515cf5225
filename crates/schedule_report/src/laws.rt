// What a run's pairs say about all schedules, each the contract of a function that does nothing.

ghost use Rattle.schedule_report.specs.Laws.{VerdictsAreExact, AgreeingRunsSpeakForAll};

/// A whole run is in order if and only if its verdict says that schedules agree, and its prints are in order if and
/// only if the verdict makes no exception.
pub fn verdicts_are_exact()
    ensures { VerdictsAreExact }
{}

/// If the verdict of one whole run says that schedules agree, every other run that ends has the same result, with the
/// same outputs if the verdict makes no exception, and every run that hasn't ended can continue.
pub fn agreeing_runs_speak_for_all()
    ensures { AgreeingRunsSpeakForAll }
{}
