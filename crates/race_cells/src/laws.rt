// What the scan of a location is right about.

ghost use Rattle.race_cells.specs.Laws.{OwnAccessesNeverRace, ScanIsExact, ScansGoOn, StacksAreLow};

/// Of a location's accesses the first is reported that races with an earlier one, with such a one; if no two race,
/// nothing is reported.
pub fn scan_is_exact()
    ensures { ScanIsExact }
{}

/// The scan goes on access by access; a cell is done once a race was reported.
pub fn scans_go_on()
    ensures { ScansGoOn }
{}

/// However many strands access a location, its stacks are no longer than tasks are deep, and two more.
pub fn stacks_are_low()
    ensures { StacksAreLow }
{}

/// Two accesses of one strand never race.
pub fn own_accesses_never_race()
    ensures { OwnAccessesNeverRace }
{}
