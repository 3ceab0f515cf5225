// How tasks, chunks, objects and remembered fields of the shared value are drawn. A picture of all of them is sound, and
// has just the objects that the heaps at rest hold.
#![tactic(auto)]

mod parts;

pub use heap_image::{ImageData, MOST_BYTES, Picked, picture_text};
pub use image_check::{ImageRemembered, OrNoMemory, verify};
pub use parts::{add_fields, add_objects, whole_picture};
