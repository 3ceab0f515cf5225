// Laws of runs as logs: the graph of a run's log is that of the run's own forks and joins.
#![tactic(auto)]

ghost use Rattle.run_log_laws.specs.Graph.{WalksAgree};
ghost use Rattle.run_log_laws.specs.Whole.{RunsAreForkJoin};

/// In every run, a walk along the edges leads from one strand to another if and only if one does in the graph of its
/// log.
pub fn walks_agree()
    ensures { WalksAgree }
{}

/// The graph of every run is that of a fork-join program: its tasks join none but their own children, the root's spawns
/// lead to each, and where they join what they haven't, no strand that the run has come to is ordered anew. Once main has
/// returned, all children are joined.
pub fn runs_are_fork_join()
    ensures { RunsAreForkJoin }
{}
