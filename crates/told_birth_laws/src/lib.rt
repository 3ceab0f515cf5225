// Laws of the entangled lines of a log whose tasks tell what they do in order: they are those told.
#![tactic(auto)]

ghost use Rattle.told_birth_laws.specs.ToldBirths.{LogBirthsAreTold};

/// A read or a use of a block is entangled, as the log's report has it, if and only if by the turns told its strand is
/// one that the block's birth doesn't happen before.
pub fn log_births_are_told()
    ensures { LogBirthsAreTold }
{}
