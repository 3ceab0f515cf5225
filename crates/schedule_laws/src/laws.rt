// Laws of schedules, each the contract of a function that does nothing.

ghost use Rattle.schedule_laws.specs.Steps.{FieldsStay, StepsLeaveSteps, StepsCommute};
ghost use Rattle.schedule_laws.specs.Laws.{OneRunSpeaksForAll, EveryEndAgrees, EveryRunGoesOn, JournalsAgree, SomeRunSpeaksUp};
ghost use Rattle.schedule_laws.specs.Ordered.{OrderedIsRaceFree};

/// A step changes only the field of an object that its access writes, and the object's mutability only by a freeze by
/// its owner.
pub fn fields_stay()
    ensures { FieldsStay }
{}

/// A task's next step is the same whatever a concurrent task does, unless their accesses clash.
pub fn steps_leave_steps()
    ensures { StepsLeaveSteps }
{}

/// Steps of two concurrent tasks whose accesses don't clash commute, except for the numbers of tasks.
pub fn steps_commute()
    ensures { StepsCommute }
{}

/// ONE RUN DETERMINES ALL: if one run ended by the return of main and its accesses are in order, every list of steps is
/// a prefix of one with the same result.
pub fn one_run_speaks_for_all()
    ensures { OneRunSpeaksForAll }
{}

/// So every run that ends has the same end: it isn't stopped and doesn't trap.
pub fn every_end_agrees()
    ensures { EveryEndAgrees }
{}

/// And a run that hasn't ended can continue, has taken fewer steps, and is in order so far.
pub fn every_run_goes_on()
    ensures { EveryRunGoesOn }
{}

/// A run is in order if and only if it has no race and no compare and swaps contend.
pub fn ordered_is_race_free()
    ensures { OrderedIsRaceFree }
{}

/// Over journals: if one is done without races, and no compare and swaps contend in it, every other that has ended
/// agrees.
pub fn journals_agree()
    ensures { JournalsAgree }
{}

/// Some program has a whole run in order, and another in which tasks have other numbers.
pub fn some_run_speaks_up()
    ensures { SomeRunSpeaksUp }
{}
