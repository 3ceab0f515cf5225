// The text of an image, for a picture of the heaps: tasks, chunks, objects with their fields, and remembered fields.
#![tactic(auto)]

mod laws;
mod picture;
mod text;

pub use laws::{pictures_are_read, some_picture_is_sound, sound_is_faultless};
pub use picture::{ImageData, Picked};
pub use plain_vec::Listed;
pub use run_trace::{Entry, Kind, Settings, Trace, Version, read_trace, trace_text};
pub use text::picture_text;
pub use text_lines::{MOST_BYTES, next_line, next_word};
