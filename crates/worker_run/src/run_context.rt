//! What the workers of a run share.

use crate::parking::Parker;
use turn_entries::{EntryCalls, Program, Run, Turn};

/// What each worker of a run works with: the turn of the shared value, the parker, the gate that it passes, and the
/// program.
#[derive(Drop)]
pub struct RunContext<'a, P: EntryCalls, G> {
    pub turn: &'a Turn<Run<P>>,
    pub parker: &'a Parker,
    pub gate: &'a G,
    pub program: &'a Program,
}
