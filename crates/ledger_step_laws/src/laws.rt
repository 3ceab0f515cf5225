// The laws of steps, each the contract of a function that does nothing.

ghost use Rattle.ledger_step_laws.specs.Laws.{PrivateStepsAreAlike};

/// Private steps have the same result before and after what others do.
pub fn private_steps_are_alike()
    ensures { PrivateStepsAreAlike }
{}
