// The text of the image of a shared value.

ghost use Rattle.std.specs.Prelude.{◌≡◌, IfOk};
ghost use Rattle.heap_picture.specs.below.heap_image.{ImageData as PictureOf, IsSoundPicture, text_of};
ghost use Rattle.heap_reading.specs.below.core_invariant.{accounts};
ghost use Rattle.heap_picture.specs.Drawn.{IsPictureOf};
ghost use Rattle.heap_picture.specs.Held.{HasJustHeld};

use crate::picture::draw;
use heap_picture::picture_text;
use shared_tree::Shared;
use std::alloc::{AllocError, Global};

/// The text of a shared value's picture, which is sound, and has exactly the objects of heaps at rest.
pub fn image_text(alloc: Global, shared: &Shared) -> Result<Vec<u8>, AllocError>
    ensures { IfOk result (λ text. (p : PictureOf) × IsPictureOf shared.now p × IsSoundPicture p × HasJustHeld p (accounts shared.now) × (text.items ≡ text_of p)) }
{
    let picture = draw(alloc, shared)?;
    picture_text(alloc, &picture)
}
