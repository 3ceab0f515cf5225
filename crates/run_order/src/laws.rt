// What the order of a run's strands is right about.

ghost use Rattle.run_order.specs.Laws.{WalksHaveAnOrder};

/// A strand happens before another one if and only if a walk along edges leads from it there; strands meet at the
/// lowest common ancestor of their tasks. Serial numbers extend that order, and strands meet as those of a tree do.
pub fn walks_have_an_order()
    ensures { WalksHaveAnOrder }
{}
