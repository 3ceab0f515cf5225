// What stretches are right about.

ghost use Rattle.log_places.specs.Laws.{MarkedAreThere, NumbersAreDistinct, SlotsAreOne, StretchesAreWhole};

/// Once a region is marked, it has all locations of a stretch or none: locations of a stretch have the same accesses.
pub fn stretches_are_whole()
    ensures { StretchesAreWhole }
{}

/// Once a region is marked, each of its locations is in a stretch.
pub fn marked_are_there()
    ensures { MarkedAreThere }
{}

/// No two stretches have one number.
pub fn numbers_are_distinct()
    ensures { NumbersAreDistinct }
{}

/// A location has one slot at most, and no two slots have one number. Where a run is marked, the slot of one of its
/// locations is within the run, and is that of each location of its stretch.
pub fn slots_are_one()
    ensures { SlotsAreOne }
{}
