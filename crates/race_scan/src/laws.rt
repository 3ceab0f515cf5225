// What the scan of all locations is right about.

ghost use Rattle.race_scan.specs.Laws.{ReleasesWriteWhatIsAccessed, ScansAreExact};

/// Of each location the first access is found that races with an earlier one, with such a one, and nothing of a location
/// of which no two accesses race.
pub fn scans_are_exact()
    ensures { ScansAreExact }
{}

/// A release is a plain write of each location of its block that is accessed, and of no other.
pub fn releases_write_what_is_accessed()
    ensures { ReleasesWriteWhatIsAccessed }
{}
