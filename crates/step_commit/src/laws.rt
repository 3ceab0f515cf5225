// The laws of parts, each the contract of a function that does nothing.

ghost use Rattle.step_commit.specs.Laws.{PartsFitAgain};

/// After private steps a part fits again.
pub fn parts_fit_again()
    ensures { PartsFitAgain }
{}
