// The plain data of a journal's accounts: heaps, the ledger, how a run ends, why an entry is refused, the report and
// the pace.

use path_laws::{End, MachineState, Name, Strand};
use plain_vec::Listed;

/// How a run ended.
#[derive(Clone, Copy, PartialEq, Eq)]
pub enum RunEnd {
    /// The machine ended.
    Machine(End),
    /// The fuel was used up: the steps taken by then.
    Fuel(u64),
    /// A task needed a chunk and too few were free: the chunks in use.
    Pool(u32),
}

/// Why an entry is refused.
#[derive(Clone, Copy, PartialEq, Eq)]
pub enum Refused {
    /// The run has ended.
    Over,
    /// The fuel is used up: the steps taken so far. Only the entry that ends the run may follow.
    Spent(u64),
    /// There is no such worker.
    NoWorker,
    /// The task isn't ready, or doesn't exist.
    NotReady,
    /// The worker holds this task already.
    Holding(u32),
    /// The worker doesn't hold the task, or it doesn't run.
    NotOut,
    /// The task's leaf collection has begun and hasn't ended.
    Collecting,
    /// The task's leaf collection hasn't begun.
    NotCollecting,
    /// The task isn't waiting for its children.
    NotWaiting,
    /// The heap was swept since the task's last fork.
    Swept,
    /// The marking of the heap has begun since the task's last fork.
    Marking,
    /// The marking of the heap hasn't begun.
    NotMarking,
    /// Only this many of the next steps fit in one entry.
    Long(u32),
    /// The task is due for a leaf collection: the words allocated since its last one.
    Due(u64),
    /// The task needs no chunk: the words that it has room for.
    NotNeeded(u32),
    /// For a leaf collection: too few words were allocated since the last one, or nothing is allocated next. For a
    /// marking: the heap has too few words.
    NotDue(u64),
    /// The collection would take more chunks than are free: the chunks in use.
    PoolShort(u32),
    /// Enough chunks are free for the collection: the chunks in use.
    PoolEnough(u32),
    /// Nothing is left to mark.
    Marked,
    /// Something is left to mark: the objects marked so far.
    Left(u32),
    /// A number of the entry is wrong: its value, and the right one.
    Count(u32, u32),
    /// Fuel is left: the steps taken so far.
    NotSpent(u64),
    /// The journal stops before an end of the run.
    Short,
    /// An earlier entry was refused, or ran out of memory.
    Stopped,
}

/// The first entry of a journal that is refused: its number, counted from 1, and why.
#[derive(Clone, Copy)]
pub struct RefusedAt {
    pub index: u64,
    pub cause: Refused,
}

/// The account of one task's heap. A chunk has 1,024 words; a large object has a chunk of its own, of as many units of
/// 1,024 words as it needs.
#[derive(Drop)]
pub struct Heap {
    /// The held names of small objects, chunk by chunk.
    pub chunks: Listed<Listed<Name>>,
    /// The held names of large objects.
    pub large: Listed<Name>,
    /// The units of a chunk that is reserved for a large object, or 0.
    pub reserved: u32,
    /// The words left in the last chunk.
    pub room: u32,
    /// The words allocated since the last leaf collection, including those of children that joined.
    pub since: u64,
    /// The worker that holds the task.
    pub worker: Option<u32>,
    /// How many chunks the current leaf collection took, if one has begun and not ended.
    pub begun: Option<u32>,
    /// What the last leaf collection that began keeps.
    pub survivors: Listed<Name>,
    /// What was reachable in the heap when the task last forked.
    pub snapshot: Listed<Name>,
    /// How many objects are marked, while the heap is being marked.
    pub marked: Option<u32>,
    /// Whether the heap was swept since the task's last fork.
    pub swept: bool,
}

/// The accounts of a journal.
pub struct Ledger {
    /// The machine that never collects, after the journal's steps.
    pub machine: MachineState,
    /// The heaps by task.
    pub heaps: Listed<Heap>,
    /// The steps taken.
    pub steps: u64,
    /// How the run ended, if it has.
    pub end: Option<RunEnd>,
}

impl Drop for Ledger {
    fn drop(self) {
        let Ledger {
            machine: _,
            heaps: _,
            steps: _,
            end: _,
        } = self;
    }
}

/// The counts of a run.
#[derive(Clone, Copy)]
pub struct Report {
    /// The tasks made, including the first.
    pub tasks: u64,
    pub steps: u64,
    /// The entries.
    pub turns: u64,
    /// The leaf collections that ended.
    pub leaf: u64,
    /// Those that were put off.
    pub putoff: u64,
    /// The words that leaf collections dropped.
    pub leaf_freed: u64,
    /// The sweeps.
    pub inner: u64,
    /// The words that sweeps dropped.
    pub inner_freed: u64,
    /// The chunks in use at the end, in units of 1,024 words.
    pub chunks: u64,
    /// The most chunks in use after any entry.
    pub peak: u64,
    /// The objects held at the end by tasks that don't run.
    pub held: u64,
    /// Their words.
    pub words: u64,
}

/// A worker's previous entry, as far as the pace of inner collections needs it.
#[derive(Clone, Copy)]
pub enum Previous {
    /// None, or an entry without steps.
    Other,
    /// Steps that didn't fork.
    Ran,
    /// Steps that ended this strand with a fork.
    Forked(Strand),
}

/// What the pace of inner collections records of a worker.
#[derive(Drop)]
pub struct WorkerPace {
    pub previous: Previous,
    /// The forks after which the worker began to mark the heap of the waiting task, the last one first. A fork is named
    /// by the strand that it ended.
    pub marks: Listed<Strand>,
}

/// How many objects are marked at once.
pub const MARKED_AT_ONCE: u32 = 64;

/// What the pace of inner collections demands of a worker's next entry.
#[derive(Clone, Copy)]
pub enum Owed {
    /// The marking of this task's heap is to begin.
    Mark(u32),
    /// `MARKED_AT_ONCE` more objects of this task's heap are to be marked.
    More(u32),
    /// This task's heap is to be swept.
    Sweep(u32),
    Nothing,
}
