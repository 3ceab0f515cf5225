// The laws of the relation, each the contract of a function that does nothing.

ghost use Rattle.refinement.specs.Laws.{ForksKeep, JoinsKeep, CollectionsKeep, SweepsKeep};

/// A fork keeps the relation: the parent waits, its children have fresh belongings, and nothing moves.
pub fn forks_keep()
    ensures { ForksKeep }
{}

/// So does a join: the parent owns what its children owned, and nothing moves.
pub fn joins_keep()
    ensures { JoinsKeep }
{}

/// So does the end of a leaf collection: the survivors are at new addresses, and each reference to one is updated.
pub fn collections_keep()
    ensures { CollectionsKeep }
{}

/// So does a sweep: exactly the snapshot stays, and nothing moves.
pub fn sweeps_keep()
    ensures { SweepsKeep }
{}
