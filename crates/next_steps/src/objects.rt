// The objects that a task has allocated.

ghost use Rattle.std.specs.Prelude.{◌≡◌, ◌<◌, ◌^◌, length, slice_get};
ghost use Rattle.hh_model.specs.Effect.{row_of};

use hh_model::Machine;

/// How many objects a task has allocated, which is the number of its next one.
pub fn objects_of(machine: &Machine, t: u32) -> usize
    requires { machine.now.steps < 2 ^ 30 }
    ensures value { result ≡ length (row_of (slice_get machine.now.state.store t)) }
    ensures fits { result < 2 ^ 32 }
{
    machine.reached();
    match machine.state().store.get(t as usize) {
        Some(row) => row.len(),
        None => 0,
    }
}
