// Laws of renamings, each the contract of a function that does nothing.

ghost use Rattle.renaming_laws.specs.PlaceLaw.{PlacesAreNames};
ghost use Rattle.renaming_laws.specs.Laws.{RunsAreCarried};

/// The numbers of tasks mean nothing to a program: two runs that are alike stay alike when both take the same further
/// steps, renamed in the second run.
pub fn runs_are_carried()
    ensures { RunsAreCarried }
{}

/// Each task has one place in the tree of forks, and no two have the same.
pub fn places_are_names()
    ensures { PlacesAreNames }
{}
