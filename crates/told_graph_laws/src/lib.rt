// Laws of the graph that a log tells, if each of its tasks goes from strand to strand and does nothing behind its end.
#![tactic(auto)]

ghost use Rattle.told_graph_laws.specs.ToldGraph.{LogsTellGraphs};

/// The log's tasks have the numbers that it gives them, and its graph is that of the turns it tells: with joins of what is
/// unjoined, if the log was cut.
pub fn logs_tell_graphs()
    ensures { LogsTellGraphs }
{}
