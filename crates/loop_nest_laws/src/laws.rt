// Laws of parallel loops.

ghost use Rattle.loop_nest_laws.specs.LoopLaw.{LoopsCallEachNumber};

/// Once a loop has returned, its nest has called the function once for each number, and returns the sum.
pub fn loops_call_each_number()
    ensures { LoopsCallEachNumber }
{}
