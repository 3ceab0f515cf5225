// A law on groups, the contract of a function that does nothing.

ghost use Rattle.race_groups.specs.Laws.{RaceGroupsAreExact};

/// Of all races each is counted in exactly one group, whose example is one of them.
pub fn groups_are_exact()
    ensures { RaceGroupsAreExact }
{}
