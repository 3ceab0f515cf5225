// Laws of the names and numbers of programs that are read: they fit in the lines of a log.
#![tactic(auto)]

ghost use Rattle.read_name_laws.specs.Named.{ReadProgramsAreNamed};

/// The functions of a program that is read have names without line feeds and zero bytes, and lines with small numbers.
pub fn read_programs_are_named()
    ensures { ReadProgramsAreNamed }
{}
