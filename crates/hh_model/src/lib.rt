// The machine that never collects: its definitions are in specs/, and this is the plain machine that computes them.
// Laws of its runs are in `path_laws` and `model_laws`.
#![tactic(auto)]

// The machine, its plain data, and what a step reads of them.
mod data;
mod found;
mod lookup;
mod machine;

// The steps of tasks.
mod calculations;
mod change;
mod fields;
mod fork;
mod returns;
mod take;

// What steps consist of: numbers, and changes of frames and the store.
mod arithmetic;
mod frame;
mod frames;
mod store;

pub use arithmetic::{calculate, field_counts, field_index, is_same};
pub use data::{Edge, End, Frame, MachineState, Name, Object, Strand, Task, TaskStatus, Trap};
pub use machine::{Machine, StepError};
