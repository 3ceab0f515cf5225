// Laws of the texts of values.

ghost use Rattle.json_text.specs.Laws.{ValuesBalance, ArraysAreJoined, MembersAreJoined};

/// In the text of every value quotes and brackets balance.
pub fn values_balance()
    ensures { ValuesBalance }
{}

/// The text of an array is that of its first value, then that of each further one after a comma.
pub fn arrays_are_joined()
    ensures { ArraysAreJoined }
{}

/// The text of an object is that of its first members, then that of the others after a comma.
pub fn members_are_joined()
    ensures { MembersAreJoined }
{}
