// Laws of trace texts.

ghost use Rattle.run_trace.specs.TraceLaw.{TextsAreReadAgain};

/// The trace text of a journal has no fault, and gives that journal and no other.
pub fn texts_are_read_again()
    ensures { TextsAreReadAgain }
{}
