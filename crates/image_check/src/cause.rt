// Why an image is refused.

ghost use Rattle.std.specs.Prelude.{◌≡◌};
ghost use Rattle.image_check.specs.ImageCause.{image_cause_text};

/// Why a line is refused, in the order in which the causes are looked for.
#[derive(Clone, Copy, PartialEq, Eq)]
pub enum ImageCause {
    /// More than 16,777,216 bytes; reported at line 0.
    TooLong,
    /// Not a line of an image, or out of order; at the last line, a missing end.
    Line,
    /// An earlier line has an object of this birth.
    Twice,
    /// No earlier line has a task of this number.
    NoTask,
    /// No chunk has the address.
    NoChunk,
    /// The object leaves its chunk, or overlaps the previous one.
    Place,
    /// The owner of the object's chunk is running.
    Running,
    /// The reference is neither nil, nor an object's address, nor in a chunk of a running task.
    Ref,
    /// The owner of the reference's target is neither an ancestor nor a descendant.
    Cross,
    /// A reference to a descendant that doesn't remember the field.
    Down,
    /// The remembered field isn't a reference field of an ancestor's object.
    Field,
    /// The number of objects is wrong.
    Count,
}

/// The first line with a fault, counted from 1, and its first cause. A text of too many bytes has line 0.
#[derive(Clone, Copy)]
pub struct ImageFault {
    pub line: u32,
    pub cause: ImageCause,
}

impl ImageCause {
    /// The cause in lower case without spaces.
    pub fn text(self) -> &'static str
        ensures { result.now ≡ image_cause_text self }
    {
        match self {
            ImageCause::TooLong => "toolong",
            ImageCause::Line => "line",
            ImageCause::Twice => "twice",
            ImageCause::NoTask => "notask",
            ImageCause::NoChunk => "nochunk",
            ImageCause::Place => "place",
            ImageCause::Running => "running",
            ImageCause::Ref => "ref",
            ImageCause::Cross => "cross",
            ImageCause::Down => "down",
            ImageCause::Field => "field",
            ImageCause::Count => "count",
        }
    }
}
