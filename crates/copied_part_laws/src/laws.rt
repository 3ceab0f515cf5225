// The laws of copied parts, each the contract of a function that does nothing.

ghost use Rattle.copied_part_laws.specs.Handed.{CopiedFits};

/// A part that was copied fits the shared value for the end of its collection.
pub fn copied_fits()
    ensures { CopiedFits }
{}
