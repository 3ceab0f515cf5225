// A law on groups, the contract of a function that does nothing.

ghost use Rattle.log_groups.specs.Laws.{ItemGroupsAreExact};

/// Each finding is counted in exactly one group, whose first is the first of its key.
pub fn groups_are_exact()
    ensures { ItemGroupsAreExact }
{}
