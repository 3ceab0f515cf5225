// The slots of tasks: the parked state of each, its heap, what is noted for it, and what is marked of it.
#![tactic(auto)]

mod heaps;
mod slots;
mod spare_blocks;
mod task_at_rest;

pub use boxed::BoxedSlot;
pub use chunk_pool::{NotTaken, Pool};
pub use heaps::Heaps;
pub use leaf_heap::{LeafHeap, View};
pub use object_layout::Addr;
pub use remembered_set::RefField;
pub use slots::{TaskSlot, TaskSlots};
pub use task_at_rest::{ParkedTask, Work};
pub use write_barrier::{SetOf, note_write};
