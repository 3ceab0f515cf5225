// What holds of graphs.

ghost use Rattle.fork_graph.specs.Cut.{CompletedAreNested};
ghost use Rattle.fork_graph.specs.Faults.{SoundRunsHaveNoFault};

/// Where tasks join none but their own children, the joins of all that is unjoined make a whole run of them.
pub fn completed_are_nested()
    ensures { CompletedAreNested }
{}

/// No strand of a run has a fault.
pub fn sound_runs_have_no_fault()
    ensures { SoundRunsHaveNoFault }
{}
