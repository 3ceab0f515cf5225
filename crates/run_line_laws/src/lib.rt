// Laws of the lines of a run's log: none of them is refused.
#![tactic(auto)]

ghost use Rattle.run_line_laws.specs.Faultless.{RunLinesHaveNoFault};

/// No line of the log of a legal journal of fewer than 500,000,000 steps has a fault, if the program's names and
/// numbers fit in lines.
pub fn run_lines_have_no_fault()
    ensures { RunLinesHaveNoFault }
{}
