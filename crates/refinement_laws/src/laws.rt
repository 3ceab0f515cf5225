// The laws of entries and of what workers hold, each the contract of a function that does nothing.

ghost use Rattle.refinement_laws.specs.WorkerLaws.{RanLeaves, SweepsLeave, EndsLeave};

/// An entry of steps keeps what every other worker holds fitting.
pub fn ran_leaves()
    ensures { RanLeaves }
{}

/// So does a sweep.
pub fn sweeps_leave()
    ensures { SweepsLeave }
{}

/// So does the end of another's leaf collection.
pub fn ends_leave()
    ensures { EndsLeave }
{}
