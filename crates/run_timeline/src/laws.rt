// What holds of the events of a journal.

ghost use Rattle.run_timeline.specs.Laws.{SlicesAreEntries};
ghost use Rattle.run_timeline.specs.Words.{WordsFollowEntries};

/// Each entry of a journal is exactly one slice among its events, at its place.
pub fn slices_are_entries()
    ensures { SlicesAreEntries }
{}

/// Behind an entry the heaps hold as many words as before it, with those that its steps allocated, without those that
/// it dropped.
pub fn words_follow_entries()
    ensures { WordsFollowEntries }
{}
