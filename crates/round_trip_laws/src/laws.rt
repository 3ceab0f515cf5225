// Laws of a program's text followed by a trace.

ghost use Rattle.round_trip_laws.specs.RoundTrip.{InputsAreRead, RecordedInputsAreRead};

/// A program's text that ends in a line feed, followed by a trace text, within the limit, is read as that program and
/// that trace, and as no other.
pub fn inputs_are_read()
    ensures { InputsAreRead }
{}

/// A program's text that ends in a line feed, followed by the trace text of a journal, within the limit, is read as
/// that program and that journal, and as no other.
pub fn recorded_inputs_are_read()
    ensures { RecordedInputsAreRead }
{}
