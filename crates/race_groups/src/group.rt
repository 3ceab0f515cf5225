// The races on one pair of lines.

ghost use Rattle.std.specs.Prelude.{◌≡◌};
ghost use Rattle.race_groups.specs.RaceGroups.{Lines, lines_of_race, group_of};

use race_report::Race;

/// The races whose earlier accesses stand on one line, and whose later ones on one line.
#[derive(Clone, Copy)]
pub struct RaceGroup {
    /// The first of them, in the order of the fields.
    pub example: Race,
    /// Their number. Each is of another field.
    pub fields: usize,
}

/// The line of the earlier access, and that of the later one.
pub(crate) fn lines_of_race(race: &Race) -> (u32, u32)
    ensures { result ≡ lines_of_race race.now }
{
    let (_, first) = race.first;
    let (_, second) = race.second;
    (first, second)
}

/// The group of a race alone.
pub(crate) fn group_of(race: &Race) -> RaceGroup
    ensures { result ≡ group_of race.now }
{
    RaceGroup {
        example: *race,
        fields: 1,
    }
}
