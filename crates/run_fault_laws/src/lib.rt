// Laws of the faults of a run's log: it has none.
#![tactic(auto)]

ghost use Rattle.run_fault_laws.specs.Sound.{RunTasksAreSound};

/// No task of the log of a legal journal has a fault: neither of a cut log, nor, if the run ended by the return of main, of
/// a whole one.
pub fn run_tasks_are_sound()
    ensures { RunTasksAreSound }
{}
