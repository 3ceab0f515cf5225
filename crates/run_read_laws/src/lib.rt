// Laws of what a run's log tells of blocks: their births, and the reads and uses that see them.
#![tactic(auto)]

ghost use Rattle.run_read_laws.specs.Reads.{LogsTellReads};

/// The lines of a legal journal's log tell the birth of each object of its run, on the object's strand, and no other.
/// What they tell to access an object, or to yield it, is on a strand that the object's happens before, but for the
/// read on which the run was stopped, if it was.
pub fn logs_tell_reads()
    ensures { LogsTellReads }
{}
