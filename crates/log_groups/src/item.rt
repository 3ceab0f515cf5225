// Findings and their groups.

ghost use Rattle.std.specs.Prelude.{◌≡◌, ◌<◌, ◌^◌};
ghost use Rattle.log_groups.specs.Groups.{group_of};

/// What findings are gathered by: a block, and what is told of two lines. Findings of one line have zeros for the second.
#[derive(Clone, Copy, PartialEq, Eq, Hash)]
pub struct GroupKey {
    pub block: u64,
    pub first_kind: u64,
    pub first_site: u64,
    pub second_kind: u64,
    pub second_site: u64,
}

/// A finding.
#[derive(Clone, Copy)]
pub struct Item {
    pub key: GroupKey,
    /// How many it counts for.
    pub size: u64,
    /// Its place among all findings.
    pub place: usize,
}

/// The findings of one key.
#[derive(Clone, Copy)]
pub struct Group {
    /// The first of them.
    pub first: Item,
    /// How many all of them count for.
    pub total: u128,
}

/// How many a finding counts for.
pub(crate) fn size_of(item: Item) -> u64
    ensures value { result ≡ item.size }
    ensures small { result < 2 ^ 64 }
{
    item.size
}

/// The group of a finding alone.
pub(crate) fn group_of(item: Item) -> Group
    ensures { result ≡ group_of item }
{
    Group {
        first: item,
        total: item.size as u128,
    }
}
