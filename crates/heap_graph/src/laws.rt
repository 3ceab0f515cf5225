// Laws of the edges of an image.

ghost use Rattle.heap_graph.specs.Laws.{ReferencesAreEdges};

/// An object has exactly one edge of its kind for each of its references that lead into a heap, and no other edge.
pub fn references_are_edges()
    ensures { ReferencesAreEdges }
{}
