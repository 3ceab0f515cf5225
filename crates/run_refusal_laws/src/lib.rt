// Laws of refusals of a run's log: there are none.
#![tactic(auto)]

ghost use Rattle.run_refusal_laws.specs.Refused.{RunsHaveNoFault};

/// Neither a line nor a task of the log of a legal journal of fewer than 500,000,000 steps has a fault, if the
/// program's names and numbers fit in lines.
pub fn runs_have_no_fault()
    ensures { RunsHaveNoFault }
{}
