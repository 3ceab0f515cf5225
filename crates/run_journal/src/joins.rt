// The joins of a task.

ghost use Rattle.std.specs.Prelude.{◌≡◌};
ghost use Rattle.hh_model.specs.Tree.{joins_in};

use hh_model::MachineState;

/// How many forks of a task have joined.
pub fn joins_of(state: &MachineState, t: u32) -> u32
    ensures { result ≡ joins_in state.now.tasks t }
{
    match state.tasks.get(t as usize) {
        Some(task) => task.joins,
        None => 0,
    }
}
