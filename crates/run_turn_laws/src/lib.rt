// Laws of what a run's log tells: its turns are the edges of the run.
#![tactic(auto)]

ghost use Rattle.run_turn_laws.specs.Turns.{LogsTellEdges};

/// The turns that the lines of a legal journal's log tell are the edges of its run, task by task and in their order, and
/// each line is on the strand to which its task's turns before it lead.
pub fn logs_tell_edges()
    ensures { LogsTellEdges }
{}
