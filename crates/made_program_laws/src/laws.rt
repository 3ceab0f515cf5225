// Laws of made texts.

ghost use Rattle.made_program_laws.specs.Laws.{MadeArePrograms};

/// A made text has no fault, whatever the seed.
pub fn made_are_programs()
    ensures { MadeArePrograms }
{}
