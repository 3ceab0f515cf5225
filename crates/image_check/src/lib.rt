// Checks the text of an image: tasks, chunks, objects with their references, and remembered fields.
#![tactic(auto)]

// The check of a whole text, and what holds of images.
mod check;
mod laws;
mod read;
mod whole;

// Its lines.
mod line;
mod number;

// What has been read: chunks with their owners, tasks, and what must be unique.
mod owners;
mod sets;
mod table;
mod tasks;

// Why an image is refused.
mod cause;
mod faults;

pub use cause::{ImageCause, ImageFault};
pub use check::{read_image, verify};
pub use laws::{faultless_is_sound, objects_are_counted, tasks_are_related};
pub use line::{
    ImageBirth, ImageChunk, ImageLine, ImageObject, ImageRemembered, ImageState, ImageTask,
    read_line,
};
pub use number::read_short;
pub use or_no_memory::OrNoMemory;
pub use owners::{chunk_of_address, owner_of};
pub use read::Read;
pub use table::ImageTable;
pub use tasks::{ImageTasks, Relation};
