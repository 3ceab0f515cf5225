// Why a text is no line of a log.

/// Why a text is no line of a log. Where there are several reasons, the first one from the left is told.
#[derive(Clone, Copy, PartialEq, Eq)]
pub enum LogCause {
    /// It begins with no word that a line begins with.
    BadWord,
    /// A word that should be a number isn't one: decimal digits without a leading zero, at most 18 of them.
    BadNumber,
    /// A word is missing, or one is left over.
    WrongCount,
    /// A number is outside its limits.
    OverLimit,
    /// The runs of a place overlap: they are less far apart than they are long.
    RunsOverlap,
    /// The log is of a version of the format that isn't known.
    UnknownVersion,
}
