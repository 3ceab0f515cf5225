// Pictures of the heaps.

use image_check::{ImageBirth, ImageChunk, ImageRemembered, ImageTask};
use plain_vec::Listed;

/// An object. A reference is an address, or 0 for nil.
#[derive(Drop)]
pub struct Picked {
    pub address: u64,
    pub birth: ImageBirth,
    pub mutable: bool,
    pub references: Listed<u64>,
    pub numbers: Listed<i64>,
}

/// What an image shows.
#[derive(Drop)]
pub struct ImageData {
    /// The tasks that haven't joined.
    pub tasks: Listed<ImageTask>,
    /// The chunks in use.
    pub chunks: Listed<ImageChunk>,
    /// The objects of heaps at rest.
    pub objects: Listed<Picked>,
    /// The reference fields that heaps remember.
    pub fields: Listed<ImageRemembered>,
}
