// The plain data of accesses and races.

use crate::firsts::Firsts;
use run_journal::{Listed, Name, Strand};

/// A field of an object. Fields are ordered by name, then references before numbers, then by index.
#[derive(Clone, Copy)]
pub struct Field {
    pub name: Name,
    /// Whether it is a number field; otherwise it is a reference field.
    pub is_number: bool,
    /// Its index among the object's fields of its kind.
    pub index: u32,
}

/// What a step does to a field.
#[derive(Clone, Copy)]
pub struct FieldAccess {
    /// The strand that takes the step; its task is the step's.
    pub strand: Strand,
    /// The source line of the instruction.
    pub line: u32,
    pub field: Field,
    /// Whether it is a write; otherwise it is a read.
    pub writes: bool,
    /// Whether it is made by `cas`.
    pub swaps: bool,
}

/// What a run is scanned for.
#[derive(Clone, Copy)]
pub enum Sight {
    /// All accesses of fields.
    Fields,
    /// Only those by `cas`, counted like any access.
    Swaps,
    /// Prints, counted like writes to one field.
    Prints,
}

/// Two accesses of a field that race: the task and the line of each.
#[derive(Clone, Copy)]
pub struct Race {
    /// The task and the count of the object's name.
    pub task: u32,
    pub count: u32,
    /// Whether the field is a reference field.
    pub is_ref: bool,
    pub index: u32,
    /// The task and the line of the earlier access.
    pub first: (u32, u32),
    /// The task and the line of the later one.
    pub second: (u32, u32),
}

/// An access with the label of its strand.
#[derive(Drop)]
pub struct Seen {
    pub access: FieldAccess,
    pub label: Listed<Strand>,
}

/// What must happen before a strand so that several strands all do.
#[derive(Drop)]
pub struct Bound {
    pub label: Listed<Strand>,
    /// Whether the bound is strict: it happens before no strand whose label continues this one, only before those with
    /// more joins.
    pub strict: bool,
}

/// Accesses of a field without a race: the first of each strand and kind, and bounds of some of them.
#[derive(Drop)]
pub struct Open {
    pub earlier: Firsts,
    pub all: Bound,
    pub writes: Bound,
    /// The bound of those that aren't made by `cas`.
    pub plain: Bound,
    pub plain_writes: Bound,
}

/// The record of a field: its accesses, or its race.
#[derive(Drop)]
pub enum Watch {
    Open(Open),
    Found(Race),
}
