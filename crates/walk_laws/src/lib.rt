// Reachability by walks along edges, over any type of node: the same definition for names of objects and for addresses.
#![tactic(auto)]

ghost use Rattle.walk_laws.specs.Laws.{ReachedIsLeast};

/// What is reached is the least set that contains the starts and is closed under the edges.
pub fn reached_is_least<T>()
    ensures { ReachedIsLeast T }
{}
