// The image of the shared value: what is read of it, its picture, and that picture's text.
#![tactic(auto)]

// What is read of the shared value: tasks, chunks, objects, remembered fields.
mod objects_seen;
mod remembered_fields;
mod tasks_and_chunks;

// The picture, and its text.
mod picture;
mod text;

pub use text::image_text;
