// Accesses of a location, and which of them clash.

/// How a location is accessed.
#[derive(Clone, Copy, PartialEq, Eq)]
pub enum CellAccessKind {
    PlainRead,
    PlainWrite,
    AtomicRead,
    /// An atomic write, or an atomic update that wrote.
    AtomicWrite,
}

impl CellAccessKind {
    ghost use Rattle.std.specs.Prelude.{◌≡◌};
    ghost use Rattle.race_cells.specs.CellAccess.{clash, is_atomic, writes};

    pub fn writes(self) -> bool
        ensures { result ≡ writes self }
    {
        match self {
            CellAccessKind::PlainRead | CellAccessKind::AtomicRead => false,
            CellAccessKind::PlainWrite | CellAccessKind::AtomicWrite => true,
        }
    }

    pub fn is_atomic(self) -> bool
        ensures { result ≡ is_atomic self }
    {
        match self {
            CellAccessKind::PlainRead | CellAccessKind::PlainWrite => false,
            CellAccessKind::AtomicRead | CellAccessKind::AtomicWrite => true,
        }
    }

    /// Whether two accesses of these kinds race if neither happens before the other: one of them writes, and not both
    /// are atomic.
    pub fn clashes_with(self, other: CellAccessKind) -> bool
        ensures { result ≡ clash self other }
    {
        (self.writes() || other.writes()) && !(self.is_atomic() && other.is_atomic())
    }
}

/// An access of a location.
#[derive(Clone, Copy)]
pub struct CellAccess {
    /// The strand that made it, by its place in the serial order.
    pub strand: u32,
    pub kind: CellAccessKind,
    /// The line that tells of it.
    pub line: u32,
}

/// Two accesses that race, in the serial order.
#[derive(Clone, Copy)]
pub struct CellRace {
    pub first: CellAccess,
    pub second: CellAccess,
}

/// An access whose kind is known from where it is kept.
#[derive(Clone, Copy)]
pub struct CellEntry {
    /// The strand that made it, by its place in the serial order.
    pub strand: u32,
    /// The line that tells of it.
    pub line: u32,
}

impl CellAccess {
    ghost use Rattle.std.specs.Prelude.{◌≡◌};
    ghost use Rattle.race_cells.specs.CellAccess.{entry_of};

    /// What is kept of it beside its kind.
    pub fn entry(self) -> CellEntry
        ensures { result ≡ entry_of self }
    {
        CellEntry {
            strand: self.strand,
            line: self.line,
        }
    }
}

impl CellEntry {
    ghost use Rattle.std.specs.Prelude.{◌≡◌};
    ghost use Rattle.race_cells.specs.CellAccess.{race_of};

    /// The race of this access, which is of a kind, with a later one.
    pub fn race_with(self, kind: CellAccessKind, second: CellAccess) -> CellRace
        ensures { result ≡ race_of kind second self }
    {
        CellRace {
            first: CellAccess {
                strand: self.strand,
                kind,
                line: self.line,
            },
            second,
        }
    }
}
