// The first word of a line.

ghost use Rattle.std.specs.Prelude.{◌≡◌};
ghost use Rattle.log_lines.specs.Grammar.{letter_verb, long_verb, verb_of};

use crate::line::AccessKind;

/// What the first word of an act announces.
#[derive(Clone, Copy)]
pub(crate) enum ActVerb {
    Access(AccessKind),
    Yield,
    Store,
    Birth,
    Release,
    Work,
    Spawn,
    Join,
    Finish,
}

/// What the first word of a line announces.
#[derive(Clone, Copy)]
pub(crate) enum LogVerb {
    Version,
    Strand,
    Act(ActVerb),
    Name,
    End,
}

// What a letter announces.
fn letter_verb(letter: u8) -> Option<LogVerb>
    ensures { result ≡ letter_verb letter }
{
    match letter {
        b'r' => Some(LogVerb::Act(ActVerb::Access(AccessKind::Read))),
        b'w' => Some(LogVerb::Act(ActVerb::Access(AccessKind::Write))),
        b'R' => Some(LogVerb::Act(ActVerb::Access(AccessKind::AtomicRead))),
        b'W' => Some(LogVerb::Act(ActVerb::Access(AccessKind::AtomicWrite))),
        b'g' => Some(LogVerb::Act(ActVerb::Yield)),
        b'p' => Some(LogVerb::Act(ActVerb::Store)),
        b'a' => Some(LogVerb::Act(ActVerb::Birth)),
        b'f' => Some(LogVerb::Act(ActVerb::Release)),
        b'k' => Some(LogVerb::Act(ActVerb::Work)),
        b's' => Some(LogVerb::Strand),
        b'+' => Some(LogVerb::Act(ActVerb::Spawn)),
        b'-' => Some(LogVerb::Act(ActVerb::Join)),
        b'.' => Some(LogVerb::Act(ActVerb::Finish)),
        b'@' => Some(LogVerb::Name),
        _ => None,
    }
}

// What a word of several letters announces.
fn long_verb(word: &[u8]) -> Option<LogVerb>
    ensures { result ≡ long_verb word.now }
{
    if word == b"end".as_slice() {
        Some(LogVerb::End)
    } else if word == b"hhlog".as_slice() {
        Some(LogVerb::Version)
    } else {
        None
    }
}

/// What the first word of a line announces.
pub(crate) fn verb_of(word: &[u8]) -> Option<LogVerb>
    ensures { result ≡ verb_of word.now }
{
    if word.len() == 1 {
        letter_verb(word[0])
    } else {
        long_verb(word)
    }
}
