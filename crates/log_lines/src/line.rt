// What a line of a log says.

/// Locations of a block: `runs` runs of `length` locations each, of which one begins every `apart` locations, the first
/// at `offset`.
#[derive(Clone, Copy, PartialEq, Eq)]
pub struct LogPlace {
    pub block: u64,
    pub offset: u64,
    pub length: u64,
    pub runs: u64,
    pub apart: u64,
}

/// How an access touches its locations.
#[derive(Clone, Copy, PartialEq, Eq)]
pub enum AccessKind {
    /// A plain read.
    Read,
    /// A plain write.
    Write,
    /// An atomic read.
    AtomicRead,
    /// An atomic write, or an atomic update that wrote.
    AtomicWrite,
}

/// An access to the locations of a place, and the number of its site in the program's text, where it is told.
#[derive(Clone, Copy, PartialEq, Eq)]
pub struct Access {
    pub kind: AccessKind,
    pub place: LogPlace,
    pub site: Option<u64>,
}

/// A location that holds a reference to a block (0: to none), and the number of the site in the program's text, where it
/// is told.
#[derive(Clone, Copy, PartialEq, Eq)]
pub struct Reference {
    pub block: u64,
    pub offset: u64,
    pub target: u64,
    pub site: Option<u64>,
}

/// What a strand does.
#[derive(Clone, Copy, PartialEq, Eq)]
pub enum Act {
    /// It accesses locations.
    Access(Access),
    /// It reads a location, plainly, which yields a reference.
    Yield(Reference),
    /// It writes a reference to a location, plainly.
    Store(Reference),
    /// A block is born, of so many locations.
    Birth { block: u64, length: u64 },
    /// A block is released.
    Release(u64),
    /// So many units of work are done.
    Work(u64),
    /// A task is spawned; the next strand of this one follows.
    Spawn(u32),
    /// A task is joined; the next strand of this one follows.
    Join(u32),
    /// The task ends.
    Finish,
}

/// What a line of a log says.
#[derive(Clone, Copy, PartialEq, Eq)]
pub enum LogLine {
    /// The file is a log of the known version.
    Version,
    /// What follows is on a strand of a task: that behind so many spawns and joins of it.
    Strand { task: u32, strand: u32 },
    /// What the strand does.
    Act(Act),
    /// A site of the program's text is named.
    Name(u64),
    /// Nothing: the line is empty, or a comment.
    Comment,
    /// The file is whole.
    End,
}
