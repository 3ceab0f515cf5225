// The gate that workers pass.

/// The points at which a worker passes the gate.
#[derive(Clone, Copy)]
pub enum Point {
    /// Before it runs private instructions.
    BeforeLocal,
    /// After a leaf collection has begun, before it copies.
    AfterBegin,
    /// Before it takes the turn.
    BeforeTurn,
    /// After it has released the turn.
    AfterTurn,
}

/// May delay a worker at certain points, for a limited time. A gate changes nothing of a run.
pub trait Gate: Sync {
    /// The worker is at this point; `task` is the task that it held, or had popped, when it last asked for the turn, or
    /// 0.
    fn pass(&self, worker: u32, task: u32, point: Point);
}

/// The gate that delays nobody.
#[derive(Clone, Copy)]
pub struct EmptyGate;

impl Gate for EmptyGate {
    fn pass(&self, _worker: u32, _task: u32, _point: Point) {}
}
