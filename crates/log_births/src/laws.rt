// What holds of all logs.

ghost use Rattle.log_births.specs.Laws.{UsesTellReads};

/// If a read that yields a block happens before an entangled use of it, the read is entangled too, with the same birth.
pub fn uses_tell_reads()
    ensures { UsesTellReads }
{}
