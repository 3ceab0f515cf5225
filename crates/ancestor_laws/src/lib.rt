// Laws of fork-join graphs: what precedes what is told where the two tasks' lowest common ancestor is left and entered.
#![tactic(auto)]

ghost use Rattle.ancestor_laws.specs.Meeting.{AncestorsTellPrecedence};
ghost use Rattle.ancestor_laws.specs.CutRuns.{CutRunsSpeakTruly};
ghost use Rattle.ancestor_laws.specs.Serial.{LevelsAreFew, SerialOrderExtends};
ghost use Rattle.ancestor_laws.specs.Blocks.{SerialOrderTells};
ghost use Rattle.ancestor_laws.specs.Span.{SpanIsLongest};

/// The ways of two attached strands meet at the lowest common ancestor of their tasks, and the first strand precedes
/// the second if and only if its way comes in there no later than the other's goes out.
pub fn ancestors_tell_precedence()
    ensures { AncestorsTellPrecedence }
{}

/// A run that was cut off, with joins of all that is unjoined, is nested, and says of the strands that were kept what
/// the whole run says: which of them precede which.
pub fn cut_runs_speak_truly()
    ensures { CutRunsSpeakTruly }
{}

/// A strand's reach, the greatest weight of a walk to it from the root's first strand, is its own weight and the
/// greatest reach of what leads to it; the span, the greatest weight of any such walk, is the reach of the root's
/// last strand.
pub fn span_is_longest()
    ensures { SpanIsLongest }
{}

/// The serial order, in which tasks are walked depth first, each where it is spawned, has each attached strand once,
/// and none before what precedes it.
pub fn serial_order_extends()
    ensures { SerialOrderExtends }
{}

/// Tasks that have numbers below `n` stand on at most `n` levels.
pub fn levels_are_few()
    ensures { LevelsAreFew }
{}

/// In the serial order each task stands together with all below it, and the places of strands tell which strands
/// precede which.
pub fn serial_order_tells()
    ensures { SerialOrderTells }
{}
