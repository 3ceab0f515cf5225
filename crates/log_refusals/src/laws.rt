// What holds of the lines of all logs.

ghost use Rattle.log_refusals.specs.Placed.{EventsHaveLines};

/// Each event of a log stands at a line, in the order of the lines.
pub fn events_have_lines()
    ensures { EventsHaveLines }
{}
