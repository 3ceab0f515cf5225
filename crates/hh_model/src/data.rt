// The plain data of the machine: names, objects, tasks and the whole state.

use hh_lang::Listed;

/// Where an object was allocated: its task, and how many objects that task had allocated before. Names are ordered by
/// task, then by count.
#[derive(Clone, Copy, PartialEq, Eq, PartialOrd, Ord, Hash)]
pub struct Name {
    pub task: u32,
    pub count: u32,
}

/// A stretch of a task: the task, and how many of its forks had joined when the stretch began.
#[derive(Clone, Copy)]
pub struct Strand {
    pub task: u32,
    pub joins: u32,
}

/// An edge of the graph of forks and joins.
#[derive(Clone, Copy)]
pub struct Edge {
    pub source: Strand,
    pub target: Strand,
}

/// An object.
#[derive(Drop)]
pub struct Object {
    /// The strand that allocated it.
    pub strand: Strand,
    /// Whether its fields may be written.
    pub mutable: bool,
    /// The reference fields; None is nil.
    pub refs: Listed<Option<Name>>,
    /// The number fields.
    pub ints: Listed<i64>,
}

/// A frame of a task.
#[derive(Clone, Copy)]
pub struct Frame {
    /// The function that it runs.
    pub function: u32,
    /// The place in the function's code of the instruction that comes next.
    pub next: u32,
    /// The registers `i0` to `i15`.
    pub ints: [i64; 16],
    /// The registers `r0` to `r15`; None is nil.
    pub refs: [Option<Name>; 16],
}

/// The status of a task.
#[derive(Clone, Copy)]
pub enum TaskStatus {
    /// It can take a step.
    Running,
    /// It has forked, and its two children haven't joined it yet.
    Waiting,
    /// It has ended, with its last `i0` and `r0`, and hasn't joined its parent.
    Ended(i64, Option<Name>),
    /// It and its sibling have ended and joined their parent.
    Joined,
}

/// A task.
#[derive(Drop)]
pub struct Task {
    /// The task that forked it; None for the root.
    pub parent: Option<u32>,
    /// How many forks are above it.
    pub depth: u32,
    pub status: TaskStatus,
    /// The frame that runs. It has no meaning once the task has ended.
    pub top: Frame,
    /// The frames that wait for a return, the oldest first.
    pub below: Listed<Frame>,
    /// How many of its forks have joined.
    pub joins: u32,
}

/// Why an instruction trapped.
#[derive(Clone, Copy, PartialEq, Eq)]
pub enum Trap {
    /// The reference is nil.
    Nil,
    /// The object has no field of that index.
    Range,
    /// The object is immutable; for a freeze, another task owns it.
    Frozen,
    /// The divisor is 0.
    Div,
    /// A count of fields is negative, or their sum is above the limit.
    Size,
    /// The task has as many frames, or as many forks above it, as it may.
    Depth,
}

/// How a run ended.
#[derive(Clone, Copy, PartialEq, Eq)]
pub enum End {
    /// The root returned from its last frame.
    Done,
    /// An instruction trapped: why, the task and the line of the text.
    Trapped(Trap, u32, u32),
    /// A read was stopped: the reader, and the task that owns what it would have read.
    Entangled(u32, u32),
}

/// The whole state of a machine.
pub struct MachineState {
    /// The most fields that an object may have.
    pub field_limit: u32,
    /// The tasks by number.
    pub tasks: Listed<Task>,
    /// For each task its objects, in order of allocation.
    pub store: Listed<Listed<Object>>,
    /// The edges between strands, the oldest first.
    pub edges: Listed<Edge>,
    /// What was printed, the oldest first.
    pub outputs: Listed<i64>,
    /// How the run ended, if it has.
    pub end: Option<End>,
}

impl Drop for MachineState {
    fn drop(self) {
        let MachineState {
            field_limit: _,
            tasks: _,
            store: _,
            edges: _,
            outputs: _,
            end: _,
        } = self;
    }
}
