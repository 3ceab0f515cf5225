// Gathers findings by their keys.

ghost use Rattle.std.specs.Prelude.{◌≡◌, IfOk};
ghost use Rattle.log_groups.specs.Groups.{groups_of};

use crate::item::{Group, GroupKey, Item, group_of, size_of};
use indexmap::IndexSet;
use plain_vec::Listed;
use std::alloc::{AllocError, Global};
use std::marker::Model;

/// Groups, no two of one key.
#[derive(Drop)]
struct Groups {
    list: Vec<Group>,
    keys: IndexSet<GroupKey>,
}

impl Model for Groups {
    ghost use Rattle.std.specs.Prelude.{◌≡◌, List};
    ghost use Rattle.log_groups.specs.declared.item.Group.{Group};
    ghost use Rattle.log_groups.specs.Gathered.{keys_of};

    ghost Value = { List Group };

    ghost view = { λ g. g.list.items };

    ghost invariant = { λ g. g.keys.keys ≡ keys_of g.list.items };
}

impl Groups {
    ghost use Rattle.std.specs.Prelude.{◌≡◌, ◌<◌, ◌+◌, ◌∷◌, ◌++◌, ◌^◌, ℕ, [], length, Some, None, OnOk, position, slice_get, slice_set};
    ghost use Rattle.log_groups.specs.Groups.{same_key, group_of};
    ghost use Rattle.log_groups.specs.Gathered.{with_item, keys_of, AreBelow};

    fn new(alloc: Global) -> Groups
        ensures { result ≡ [] }
    {
        Groups {
            list: Vec::new(alloc),
            keys: IndexSet::new(alloc),
        }
    }

    // Counts a finding in the group at a place.
    fn count(&mut self, place: usize, size: u64)
        requires within { place < length self.old }
        requires few { AreBelow (2 ^ 63) self.old }
        ensures { (g : Group) → slice_get self.old place ≡ Some g → self.new ≡ slice_set self.old place (record g { total = g.total + size }) }
    {
        let mut group = self.list[place];
        group.total += size as u128;
        self.list[place] = group;
    }

    // A group of a finding alone, behind the others.
    fn push(&mut self, item: Item) -> Result<(), AllocError>
        requires { position (same_key item.key) (keys_of self.old) ≡ None }
        ensures { OnOk result (self.new ≡ self.old ++ group_of item ∷ []) }
    {
        self.list.reserve(1)?;
        self.keys.insert(item.key)?;
        self.list.push_reserved(group_of(item));
        Ok(())
    }

    // The place of the group of a key.
    fn place(&self, key: GroupKey) -> Option<usize>
        ensures { result ≡ position (same_key key) (keys_of self.now) }
    {
        self.keys.get_index_of(&key)
    }

    /// Adds a finding.
    fn add(&mut self, item: Item) -> Result<(), AllocError>
        requires { AreBelow (2 ^ 63) self.old }
        ensures added { OnOk result (self.new ≡ with_item self.old item) }
        ensures few { OnOk result ((n : ℕ) → AreBelow n self.old → AreBelow (n + 1) self.new) }
    {
        let size = size_of(item);
        match self.place(item.key) {
            None => self.push(item),
            Some(place) => {
                self.count(place, size);
                Ok(())
            }
        }
    }

    fn into_listed(self) -> Listed<Group>
        ensures { result ≡ self }
    {
        let Groups { list, keys: _ } = self;
        Listed::from_vec(list)
    }
}

/// Gathers findings by their keys, in the order of the first of each.
pub fn group_items(alloc: Global, items: &[Item]) -> Result<Listed<Group>, AllocError>
    ensures { IfOk result (λ groups. groups ≡ groups_of items.now) }
{
    let _count = items.len();
    let mut groups = Groups::new(alloc);
    for item in items {
        groups.add(*item)?;
    }
    Ok(groups.into_listed())
}
