// The work and the span of a log's run.

ghost use Rattle.std.specs.Prelude.{◌≡◌, IfOk, IfErr, sum};
ghost use Rattle.fork_graph.specs.Graph.{tasks_in};
ghost use Rattle.ancestor_laws.specs.Span.{IsSpan};
ghost use Rattle.log_pieces.specs.Pieces.{events_of_pieces};
ghost use Rattle.log_strands.specs.below.log_form.{events_of};
ghost use Rattle.log_weights.specs.Weights.{weight_of, weights_of, IsTooMuch};

use crate::weights::log_weights;
use log_pieces::LogPiece;
use log_tasks::LogTasks;
use log_walk::SerialWalk;
use plain_vec::Listed;
use run_span::{span_of, total_work};
use std::alloc::{AllocError, Global};

/// The work and the span of a run.
#[derive(Clone, Copy)]
pub struct Cost {
    pub work: u64,
    pub span: u64,
}

/// Why they aren't known.
#[derive(Clone, Copy)]
pub enum CostError {
    /// The work doesn't fit in 64 bits.
    TooMuchWork,
    /// Out of memory.
    NoMemory,
}

impl From<AllocError> for CostError {
    ghost use Rattle.std.specs.Prelude.{◌≡◌};
    ghost use Rattle.log_weights.specs.declared.cost.CostError.TheVariants.{NoMemory};

    ghost from_gives = { λ _ e. e ≡ NoMemory };

    fn from(_: AllocError) -> CostError {
        CostError::NoMemory
    }
}

/// The work of a log's run, the sum of the weights of its strands, and its span, the greatest weight of a walk.
pub fn work_and_span(
    alloc: Global,
    texts: &[Listed<u8>],
    pieces: &[LogPiece],
    tasks: &LogTasks,
    walk: &SerialWalk,
) -> Result<Cost, CostError>
    requires pieces { events_of_pieces texts.now pieces.now ≡ events_of texts.now }
    requires walk { walk.now.tasks ≡ tasks.now.turns }
    ensures work { IfOk result (λ cost. cost.work ≡ sum (weights_of (events_of texts.now) tasks.now walk.now.order)) }
    ensures span { IfOk result (λ cost. IsSpan (tasks_in walk.now.tasks) (weight_of (events_of texts.now) tasks.now) cost.span) }
    ensures too_much { IfErr result (IsTooMuch (weights_of (events_of texts.now) tasks.now walk.now.order)) }
{
    let order = walk.order();
    let weights = log_weights(alloc, texts, pieces, tasks, order)?;
    match total_work(weights.as_slice()) {
        None => Err(CostError::TooMuchWork),
        Some(work) => {
            let span = span_of(alloc, &tasks.turns, order, weights.as_slice())?;
            Ok(Cost { work, span })
        }
    }
}
