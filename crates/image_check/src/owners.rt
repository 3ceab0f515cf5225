// Chunks and their owners.

ghost use Rattle.std.specs.Prelude.{◌≡◌};
ghost use Rattle.image_check.specs.ImageTasks.{chunk_at, owner_at};

use crate::line::ImageChunk;
use crate::read::chunk_of;
use crate::table::ImageTable;

/// The chunk of an address.
pub fn chunk_of_address(chunks: &ImageTable<ImageChunk>, address: u64) -> Option<ImageChunk>
    ensures { result ≡ chunk_at chunks.now address }
{
    if address == 0 {
        return None;
    }
    match chunks.find(chunk_of(address)) {
        None => None,
        Some(chunk) => Some(*chunk),
    }
}

/// The task that owns an address.
pub fn owner_of(chunks: &ImageTable<ImageChunk>, address: u64) -> Option<u64>
    ensures { result ≡ owner_at chunks.now address }
{
    match chunk_of_address(chunks, address) {
        None => None,
        Some(chunk) => Some(chunk.owner),
    }
}
