// What the collections of a legal journal keep.

ghost use Rattle.reachability_laws.specs.Kept.{LeafCollectionsKeepReached, SweepsKeepReached};

/// A leaf collection keeps, of what its heap holds at its end, exactly what was reachable as it began.
pub fn leaf_collections_keep_reached()
    ensures { LeafCollectionsKeepReached }
{}

/// A sweep keeps, of what its heap holds, exactly what was reachable as its task forked.
pub fn sweeps_keep_reached()
    ensures { SweepsKeepReached }
{}
