// Laws of the races of a log whose tasks tell what they do in order: they are those of the accesses told.
#![tactic(auto)]

ghost use Rattle.told_race_laws.specs.ToldRaces.{LogRacesAreTold};

/// In a log without releases a location is racing, as its report has it, if and only if two accesses that are told race
/// at it.
pub fn log_races_are_told()
    ensures { LogRacesAreTold }
{}
