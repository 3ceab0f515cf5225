// The weights of a log's strands.

ghost use Rattle.std.specs.Prelude.{◌≡◌, ◌≤◌, ◌<◌, ◌^◌, ◌++◌, ◌∷◌, [], List, IfOk, IfErr, OnOk, sum, length};
ghost use Rattle.log_strands.specs.below.log_form.{Event, events_of};
ghost use Rattle.log_pieces.specs.Pieces.{events_of_pieces};
ghost use Rattle.log_weights.specs.Weights.{weights_of, IsTooMuch};
ghost use Rattle.log_weights.specs.Known.{KnowsWork};

use crate::cost::CostError;
use crate::units::{StrandWork, work_of};
use fork_graph::GraphStrand;
use log_pieces::LogPiece;
use log_tasks::LogTasks;
use plain_vec::Listed;
use run_span::total_work;
use std::alloc::Global;

// The weights of the strands of an order, each of which fits.
fn weights_by(
    alloc: Global,
    work: &StrandWork,
    tasks: &LogTasks,
    order: &[GraphStrand],
) -> Result<Listed<u64>, CostError>
    ensures weights { IfOk result (λ weights. (events : List Event) → KnowsWork work.now events → weights ≡ weights_of events tasks.now order.now) }
    ensures too_much { IfErr result (λ e. (events : List Event) → KnowsWork work.now events → IsTooMuch (weights_of events tasks.now order.now) e) }
{
    let mut weights = Listed::new(alloc);
    for strand in order {
        match work.weight(tasks, *strand) {
            Some(weight) => weights.push(weight)?,
            None => return Err(CostError::TooMuchWork),
        }
    }
    Ok(weights)
}

/// The weights of the strands of an order, if their sum fits in 64 bits.
pub fn log_weights(
    alloc: Global,
    texts: &[Listed<u8>],
    pieces: &[LogPiece],
    tasks: &LogTasks,
    order: &[GraphStrand],
) -> Result<Listed<u64>, CostError>
    requires { events_of_pieces texts.now pieces.now ≡ events_of texts.now }
    ensures weights { IfOk result (λ weights. weights ≡ weights_of (events_of texts.now) tasks.now order.now) }
    ensures fits { IfOk result (λ weights. sum weights < 2 ^ 64) }
    ensures too_much { IfErr result (IsTooMuch (weights_of (events_of texts.now) tasks.now order.now)) }
{
    let work = work_of(alloc, texts, pieces, order.len())?;
    let weights = weights_by(alloc, &work, tasks, order)?;
    match total_work(weights.as_slice()) {
        Some(_) => Ok(weights),
        None => Err(CostError::TooMuchWork),
    }
}
