// Gathers races by their lines.

ghost use Rattle.std.specs.Prelude.{◌≡◌, IfOk};
ghost use Rattle.race_groups.specs.RaceGroups.{groups_of};

use crate::group::{RaceGroup, group_of, lines_of_race};
use indexmap::IndexSet;
use race_report::Race;
use std::alloc::{AllocError, Global};
use std::marker::Model;

/// Groups, no two on one pair of lines.
#[derive(Drop)]
struct RaceGroups {
    list: Vec<RaceGroup>,
    lines: IndexSet<(u32, u32)>,
}

impl Model for RaceGroups {
    ghost use Rattle.std.specs.Prelude.{◌≡◌, List};
    ghost use Rattle.race_groups.specs.declared.group.RaceGroup.{RaceGroup};
    ghost use Rattle.race_groups.specs.Gathered.{lines_of_groups};

    ghost Value = { List RaceGroup };

    ghost view = { λ g. g.list.items };

    ghost invariant = { λ g. g.lines.keys ≡ lines_of_groups g.list.items };
}

impl RaceGroups {
    ghost use Rattle.std.specs.Prelude.{◌≡◌, ◌<◌, ◌+◌, ◌∷◌, ◌++◌, [], length, Some, None, OnOk, position, slice_get, slice_set};
    ghost use Rattle.race_groups.specs.RaceGroups.{lines_of_race, same_pair, group_of};
    ghost use Rattle.race_groups.specs.Gathered.{with_grouped_race, lines_of_groups, CountsFit};

    fn new(alloc: Global) -> RaceGroups
        ensures { result ≡ [] }
    {
        RaceGroups {
            list: Vec::new(alloc),
            lines: IndexSet::new(alloc),
        }
    }

    // Counts one more race in the group at a place.
    fn count(&mut self, place: usize)
        requires within { place < length self.old }
        requires few { CountsFit self.old }
        ensures { (g : RaceGroup) → slice_get self.old place ≡ Some g → self.new ≡ slice_set self.old place (record g { fields = g.fields + 1 }) }
    {
        let mut group = self.list[place];
        group.fields += 1;
        self.list[place] = group;
    }

    // A group of a race alone, after the others.
    fn push(&mut self, race: &Race) -> Result<(), AllocError>
        requires { position (same_pair (lines_of_race race.now)) (lines_of_groups self.old) ≡ None }
        ensures { OnOk result (self.new ≡ self.old ++ group_of race.now ∷ []) }
    {
        self.list.reserve(1)?;
        self.lines.insert(lines_of_race(race))?;
        self.list.push_reserved(group_of(race));
        Ok(())
    }

    // The place of the group on these lines.
    fn place(&self, lines: (u32, u32)) -> Option<usize>
        ensures { result ≡ position (same_pair lines) (lines_of_groups self.now) }
    {
        self.lines.get_index_of(&lines)
    }

    /// Adds a race.
    fn add(&mut self, race: &Race) -> Result<(), AllocError>
        requires { CountsFit self.old }
        ensures { OnOk result (self.new ≡ with_grouped_race self.old race.now) }
    {
        match self.place(lines_of_race(race)) {
            None => self.push(race),
            Some(place) => {
                self.count(place);
                Ok(())
            }
        }
    }

    fn into_vec(self) -> Vec<RaceGroup>
        ensures { result.items ≡ self }
    {
        let RaceGroups { list, lines: _ } = self;
        list
    }
}

/// Gathers races by pairs of lines, in the order of the first race of each.
pub fn group_races(alloc: Global, races: &[Race]) -> Result<Vec<RaceGroup>, AllocError>
    ensures { IfOk result (λ groups. groups.items ≡ groups_of races.now) }
{
    let _count = races.len();
    let mut groups = RaceGroups::new(alloc);
    for race in races {
        groups.add(race)?;
    }
    Ok(groups.into_vec())
}
