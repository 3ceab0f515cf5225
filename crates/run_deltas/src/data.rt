// The plain data of deltas.

use hh_lang::Instr;
use hh_model::Name;
use plain_vec::Listed;

/// What a field holds.
#[derive(Clone, Copy)]
pub enum Value {
    /// A reference; None is nil.
    Reference(Option<Name>),
    Number(i64),
}

/// What a step does to an object, or prints. Of an object's fields the references come first, then the numbers.
#[derive(Clone, Copy)]
pub enum Deed {
    Allocates(Name),
    /// It reads a field, which holds this; a read that is stopped too.
    Reads(Name, usize, Value),
    /// It reads how many references or numbers the object has.
    Counts(Name),
    Writes(Name, usize, Value),
    /// It compares and swaps a field: the new reference, and whether the field was what was expected.
    Swaps(Name, usize, Option<Name>, bool),
    Freezes(Name),
    Prints(i64),
}

/// A step: the line and the instruction, and what it does; None where it touches no object and prints nothing, as a step
/// that traps.
#[derive(Clone, Copy)]
pub struct StepAct {
    pub line: u32,
    pub instr: Instr,
    pub deed: Option<Deed>,
}

/// A step: its line, and what it does.
#[derive(Clone, Copy)]
pub struct StepDeed {
    pub line: u32,
    pub deed: Option<Deed>,
}

/// A new object, as it is allocated.
#[derive(Drop)]
pub struct NewObject {
    pub name: Name,
    pub mutable: bool,
    /// The reference fields; None is nil.
    pub refs: Listed<Option<Name>>,
    pub ints: Listed<i64>,
}

/// A field of an object that holds a value from now on.
#[derive(Clone, Copy)]
pub struct Write {
    pub name: Name,
    pub field: usize,
    pub value: Value,
}

/// What a step changes of objects and outputs.
#[derive(Drop)]
pub enum Change {
    /// An object is allocated.
    New(NewObject),
    /// A field is written.
    Set(Write),
    /// An object becomes immutable, or stays so.
    Froze(Name),
    /// A number is printed.
    Print(i64),
}

/// What the steps of an entry change of objects and outputs, in the order of the steps.
#[derive(Drop)]
pub struct Changes {
    /// The last step.
    pub last: Option<StepAct>,
    pub all: Listed<Change>,
}

/// The status of a task.
#[derive(Clone, Copy)]
pub enum Standing {
    /// It can be taken by a worker.
    Ready,
    /// A worker has taken it, and it runs.
    Out,
    /// It has forked, and its children haven't joined.
    Waits,
    /// It has ended, and hasn't joined its parent.
    HasEnded,
    HasJoined,
}

/// Where a task stands after an entry, and what it holds.
#[derive(Drop)]
pub struct TaskNow {
    pub task: u32,
    pub standing: Standing,
    /// Of a task that can run the line of its next step, of one that waits that of its fork; else 0.
    pub line: u32,
    /// What its frames' registers hold or, once it has ended, its result: each name once.
    pub holds: Listed<Name>,
}

/// A task that was made.
#[derive(Clone, Copy)]
pub struct NewTask {
    pub task: u32,
    pub parent: u32,
    /// The number of the function that it begins in.
    pub function: u32,
}

/// What an entry changes.
#[derive(Drop)]
pub struct Delta {
    /// The tasks that were made.
    pub children: Listed<NewTask>,
    /// Where the tasks stand that the entry moved.
    pub tasks: Listed<TaskNow>,
    pub changes: Changes,
}
