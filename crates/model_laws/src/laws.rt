// Laws of the machine, each the contract of a function that does nothing.

ghost use Rattle.hh_model.specs.Counts.{SizesAreBounded};
ghost use Rattle.hh_model.specs.PathLaw.{PathIsPrecedence};
ghost use Rattle.path_laws.specs.ReadLaws.{ReadsAreDecided};
ghost use Rattle.model_laws.specs.Winner.{OneWinner, SomeCasWins};

/// The owner of an object is on a running task's path if and only if the object's strand happens before the task's.
pub fn path_is_precedence()
    ensures { PathIsPrecedence }
{}

/// Of the compare and swaps that try to set a field from nil, the first yields 1 and all others 0; the field keeps its
/// value.
pub fn one_winner()
    ensures { OneWinner }
{}

/// The law of one winner isn't vacuous: in some run two tasks try to set one field, and the first succeeds.
pub fn some_cas_wins()
    ensures { SomeCasWins }
{}

/// A read succeeds if and only if the strand of its target happens before the reader's, and is stopped otherwise; a
/// stop changes nothing but the end.
pub fn reads_are_decided()
    ensures { ReadsAreDecided }
{}

/// Each frame has 16 registers of each kind, and each object at most the larger of the limit and 16 fields of each
/// kind.
pub fn sizes_are_bounded()
    ensures { SizesAreBounded }
{}
