// The laws, each the contract of a function that does nothing.

ghost use Rattle.view_laws.specs.Laws.{FrozenStay, ReadsStay, SeenNamesAreHeld};

/// An immutable object is never written.
pub fn frozen_stay()
    ensures { FrozenStay }
{}

/// Each name that a task holds, or that is reachable from there, is in the account of some heap: so nothing that was
/// swept is looked up.
pub fn seen_names_are_held()
    ensures { SeenNamesAreHeld }
{}

/// Private steps have the same result before and after each entry of another worker, including those that read what a
/// view shows.
pub fn reads_stay()
    ensures { ReadsStay }
{}
