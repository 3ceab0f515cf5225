// What follows from the deltas of a journal.

ghost use Rattle.delta_laws.specs.Laws.{DeltasGiveObjects, DeltasGiveTasks, DeltasGiveRoots, DeltasGiveHoldings};

/// Put together one after the other, the deltas of a journal give the objects, their fields and the outputs that its
/// accounts have.
pub fn deltas_give_objects()
    ensures { DeltasGiveObjects }
{}

/// The last that the deltas of a legal journal tell of a task is where it stands and what it holds by the journal's
/// accounts.
pub fn deltas_give_tasks()
    ensures { DeltasGiveTasks }
{}

/// The names that the deltas of a legal journal last told that a task holds are those in the registers of its frames or,
/// once it has ended, in its result.
pub fn deltas_give_roots()
    ensures { DeltasGiveRoots }
{}

/// What the entries of a legal journal tell, put together, gives the chunks of each heap with the objects in them, as its
/// accounts have them.
pub fn deltas_give_holdings()
    ensures { DeltasGiveHoldings }
{}
