// Laws over the definitions, each the `ensures` of a function that does nothing.

ghost use Rattle.text_faults.specs.Laws.{FirstIsTold, NoneInPrograms};

/// The first fault of a text is the one that the reader of programs reports: on the same line, with the same cause.
pub fn first_is_told()
    ensures { FirstIsTold }
{}

/// A text has no fault if and only if it is a program.
pub fn none_in_programs()
    ensures { NoneInPrograms }
{}
