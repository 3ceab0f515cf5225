// The remembered fields of a heap.

ghost use Rattle.std.specs.Prelude.{IfOk};
ghost use Rattle.heap_reading.specs.Image.{AreAll, FieldBefore, IsNoted};

use heap_reading::{FieldAt, Listed, fields_of};
use shared_tree::Shared;
use std::alloc::{AllocError, Global};

/// The fields that were noted to point down into the heap of a task, by ascending object and field; none if there is no
/// such task.
#[tactic(auto, using(heap_reading::proofs::FieldsRead::none_noted))]
pub(crate) fn remembered(
    alloc: Global,
    shared: &Shared,
    task: u32,
) -> Result<Listed<FieldAt>, AllocError>
    ensures { IfOk result (λ fields. AreAll FieldBefore (IsNoted shared.now task) fields) }
{
    shared.stands();
    if task >= shared.tree().made() {
        return Ok(Listed::new(alloc));
    }
    let mut fields = fields_of(alloc, shared.heaps().task_slots.sources(task))?;
    fields.sort_unstable();
    Ok(Listed::from_vec(fields))
}
