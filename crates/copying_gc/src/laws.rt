// What a collection needs.

ghost use Rattle.copying_gc.specs.Laws.{NeedsAreCounted};

/// In a heap between collections, the words of small objects and the objects for which a collection reserves are those
/// that the heap counts.
pub fn needs_are_counted()
    ensures { NeedsAreCounted }
{}
