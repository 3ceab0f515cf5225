// The graph of an image.

ghost use Rattle.std.specs.Prelude.{IfOk};
ghost use Rattle.view_core.specs.Shown.{ShowsHeaps};

use heap_graph::{OrNoMemory, graph_text};
use refusal_replies::{AnswerStatus, Refusal, Reply, refused};
use std::alloc::{AllocError, Global};

/// Shows the heaps of an image.
pub(crate) fn show_heaps(
    alloc: Global,
    path: Option<u64>,
    limit: u64,
    input: &[u8],
) -> Result<Reply, AllocError>
    ensures { IfOk result (ShowsHeaps path limit input.now) }
{
    match graph_text(alloc, path, limit, input) {
        Ok(graph) => Ok(Reply::of_bytes(AnswerStatus::Done, graph)),
        Err(OrNoMemory::Refused(fault)) => refused(alloc, Refusal::Image(fault)),
        Err(OrNoMemory::NoMemory) => Err(AllocError),
    }
}
