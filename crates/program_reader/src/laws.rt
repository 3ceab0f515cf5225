// Laws of the definitions, each the `ensures` of a function that does nothing.

ghost use Rattle.program_reader.specs.Laws.{FirstFaultLaw};
ghost use Rattle.program_reader.specs.LoopLaw.{LoopsAreRead};

/// The first fault is a fault of its line, and no line before has one.
pub fn first_fault_is_first()
    ensures { FirstFaultLaw }
{}

/// A text's loop over a function is read as a call of a function that implements it.
pub fn loops_are_read()
    ensures { LoopsAreRead }
{}
