// Laws of names, each the contract of a function that does nothing.

ghost use Rattle.path_laws.specs.ReadLaws.{OwnReadsGo, FrozenReadsGo, StopsNameOwners};
ghost use Rattle.hh_model.specs.Store.{OutputsGrow};

/// A task's reads of an object that it owns are never stopped.
pub fn own_reads_go()
    ensures { OwnReadsGo }
{}

/// A task's reads of an immutable object are never stopped: each field is nil or names an object that happens before
/// the task.
pub fn frozen_reads_go()
    ensures { FrozenReadsGo }
{}

/// A stop names the task that owns the object now: it hasn't joined, and isn't on the reader's path.
pub fn stops_name_owners()
    ensures { StopsNameOwners }
{}

/// Further steps only add to the outputs.
pub fn outputs_grow()
    ensures { OutputsGrow }
{}
