// Draws a picture of the shared value.

ghost use Rattle.std.specs.Prelude.{IfOk};
ghost use Rattle.heap_reading.specs.below.chunk_pool.{AreChunks};
ghost use Rattle.heap_reading.specs.below.core_invariant.{accounts};
ghost use Rattle.heap_reading.specs.Image.{AreAll, InUseBefore, IsInUse, IsLive, LiveBefore};
ghost use Rattle.heap_picture.specs.below.heap_image.{RememberedBefore, IsSoundPicture, ObjectBefore};
ghost use Rattle.heap_picture.specs.Drawn.{AreHeldInWords, IsPictureOf};
ghost use Rattle.heap_picture.specs.Drawing.{AreFieldsOf, AreObjectsOf};
ghost use Rattle.heap_picture.specs.Held.{HasJustHeld};

use crate::{objects_seen, remembered_fields, tasks_and_chunks};
use heap_picture::{ImageData, ImageRemembered, Picked, add_fields, add_objects, whole_picture};
use heap_reading::{InUse, Listed, LiveTask};
use shared_tree::Shared;
use std::alloc::{AllocError, Global};

// The objects of these chunks.
fn draw_objects(
    alloc: Global,
    shared: &Shared,
    in_use: &[InUse],
) -> Result<Listed<Picked>, AllocError>
    requires { AreAll InUseBefore (IsInUse shared.now) in_use.now }
    ensures objects { IfOk result (λ objects. AreAll ObjectBefore (AreObjectsOf shared.now in_use.now) objects) }
    ensures words { IfOk result (λ objects. AreHeldInWords shared.now) }
{
    shared.stands();
    let mut objects = Listed::new(alloc);
    for chunk in in_use {
        let seen = objects_seen::objects(alloc, shared, chunk.number)?;
        add_objects(&mut objects, seen)?;
    }
    Ok(objects)
}

// The fields that these tasks remember.
fn draw_fields(
    alloc: Global,
    shared: &Shared,
    live: &[LiveTask],
) -> Result<Listed<ImageRemembered>, AllocError>
    requires { AreAll LiveBefore (IsLive shared.now) live.now }
    ensures { IfOk result (λ fields. AreAll RememberedBefore (AreFieldsOf shared.now live.now) fields) }
{
    shared.stands();
    let mut fields = Listed::new(alloc);
    for task in live {
        let noted = remembered_fields::remembered(alloc, shared, task.number)?;
        add_fields(&mut fields, task.number, noted.as_slice())?;
    }
    Ok(fields)
}

// The picture of all tasks that haven't joined and all chunks in use.
fn draw_all(
    alloc: Global,
    shared: &Shared,
    live: &[LiveTask],
    in_use: &[InUse],
) -> Result<ImageData, AllocError>
    requires live { AreAll LiveBefore (IsLive shared.now) live.now }
    requires in_use { AreAll InUseBefore (IsInUse shared.now) in_use.now }
    requires sized { AreChunks shared.now.pool.slots }
    ensures drawn { IfOk result (λ p. IsPictureOf shared.now p) }
    ensures sound { IfOk result (λ p. IsSoundPicture p) }
    ensures held { IfOk result (λ p. HasJustHeld p (accounts shared.now)) }
{
    shared.stands();
    let objects = draw_objects(alloc, shared, in_use)?;
    let fields = draw_fields(alloc, shared, live)?;
    whole_picture(alloc, live, in_use, objects, fields)
}

/// The picture of a shared value; it is sound, and has exactly the objects of heaps at rest.
pub(crate) fn draw(alloc: Global, shared: &Shared) -> Result<ImageData, AllocError>
    ensures drawn { IfOk result (λ p. IsPictureOf shared.now p) }
    ensures sound { IfOk result (λ p. IsSoundPicture p) }
    ensures held { IfOk result (λ p. HasJustHeld p (accounts shared.now)) }
{
    let live = tasks_and_chunks::live(alloc, shared)?;
    let in_use = tasks_and_chunks::chunk_list(alloc, shared)?;
    draw_all(alloc, shared, live.as_slice(), in_use.as_slice())
}
