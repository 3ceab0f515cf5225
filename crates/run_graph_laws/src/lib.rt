// Laws of what a run's log tells of its tasks.
#![tactic(auto)]

ghost use Rattle.run_graph_laws.specs.RunTold.{LogsTellTasks};

/// The lines of a legal journal's log tell just the tasks of its run, in order: none does anything behind its end, just
/// those that have ended have an end, and no block is released.
pub fn logs_tell_tasks()
    ensures { LogsTellTasks }
{}
