// Laws of the races of a run's log: they are those of the run.
#![tactic(auto)]

ghost use Rattle.run_race_laws.specs.Accesses.{LogsTellAccesses};
ghost use Rattle.run_race_laws.specs.Races.{LogsTellFields, LogsTellRaces};

/// The accesses that the lines of a legal journal's log tell are those of its run, in their order: each on its strand, at
/// its field's location and of its kind.
pub fn logs_tell_accesses()
    ensures { LogsTellAccesses }
{}

/// They are of locations of fields alone.
pub fn logs_tell_fields()
    ensures { LogsTellFields }
{}

/// Two of them race at a field's location if and only if two accesses of the run race for the field.
pub fn logs_tell_races()
    ensures { LogsTellRaces }
{}
