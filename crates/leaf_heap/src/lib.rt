// A task's own heap: its chunks, and the objects that it places in them.
#![tactic(auto)]

// A heap's chunks, and where the next object goes.
mod contents;
mod exchange;
mod heap;

// The chunks behind a pointer.
mod space;
mod space_chunks;
mod space_objects;

// Its objects, placed, read and written.
mod fields;
mod filled;
mod own;

// Its counts, what the children of its task see, and laws.
mod counts;
mod view;

pub use boxed::BoxedSlot;
pub use chunk_list::View;
pub use contents::New;
pub use counts::{Counts, counts_of};
pub use heap::LeafHeap;
pub use space::Space;
