// The parts of a picture, drawn one by one.

ghost use Rattle.std.specs.Prelude.{◌≡◌, ◌++◌, IfOk, OnOk, map};
ghost use Rattle.heap_picture.specs.Drawn.{drawn_chunk, drawn_field, drawn_object, drawn_state, drawn_task};

use heap_image::{ImageData, Listed, Picked};
use heap_reading::{FieldAt, InUse, LiveTask, SeenObject, TaskState};
use image_check::{ImageBirth, ImageChunk, ImageRemembered, ImageState as DrawnState, ImageTask};
use std::alloc::{AllocError, Global};

fn draw_state(state: TaskState) -> DrawnState
    ensures { result ≡ drawn_state state }
{
    match state {
        TaskState::Ready => DrawnState::Running,
        TaskState::Out => DrawnState::Running,
        TaskState::Waiting => DrawnState::Waiting,
        TaskState::Ended => DrawnState::Ended,
        TaskState::Joined => DrawnState::Ended,
    }
}

fn draw_task(task: LiveTask) -> ImageTask
    ensures { result ≡ drawn_task task }
{
    ImageTask {
        number: task.number as u64,
        parent: match task.parent {
            None => None,
            Some(parent) => Some(parent as u64),
        },
        state: draw_state(task.state),
    }
}

fn draw_chunk(chunk: InUse) -> ImageChunk
    ensures { result ≡ drawn_chunk chunk }
{
    ImageChunk {
        number: chunk.number as u64,
        owner: chunk.owner as u64,
        words: chunk.words,
    }
}

fn draw_object(object: SeenObject) -> Picked
    ensures { result ≡ drawn_object object }
{
    let SeenObject {
        at,
        birth,
        mutable,
        refs,
        ints,
    } = object;
    Picked {
        address: at,
        birth: ImageBirth {
            task: birth.task as u64,
            count: birth.count as u64,
        },
        mutable,
        references: refs,
        numbers: ints,
    }
}

fn draw_field(task: u32, field: FieldAt) -> ImageRemembered
    ensures { result ≡ drawn_field task field }
{
    ImageRemembered {
        task: task as u64,
        address: field.object,
        place: field.field as u64,
    }
}

// The tasks of a picture.
fn draw_tasks(alloc: Global, live: &[LiveTask]) -> Result<Listed<ImageTask>, AllocError>
    ensures { IfOk result (λ tasks. tasks ≡ map drawn_task live.now) }
{
    let mut tasks = Listed::new(alloc);
    for task in live {
        tasks.push(draw_task(*task))?;
    }
    Ok(tasks)
}

// The chunks of a picture.
fn draw_chunks(alloc: Global, in_use: &[InUse]) -> Result<Listed<ImageChunk>, AllocError>
    ensures { IfOk result (λ chunks. chunks ≡ map drawn_chunk in_use.now) }
{
    let mut chunks = Listed::new(alloc);
    for chunk in in_use {
        chunks.push(draw_chunk(*chunk))?;
    }
    Ok(chunks)
}

/// Appends objects.
pub fn add_objects(objects: &mut Listed<Picked>, seen: Listed<SeenObject>) -> Result<(), AllocError>
    ensures { OnOk result (objects.new ≡ objects.old ++ map drawn_object seen) }
{
    let mut left = seen.into_vec();
    left.reverse();
    while let Some(object) = left.pop() {
        objects.push(draw_object(object))?;
    }
    Ok(())
}

/// Appends the fields that a task remembers.
pub fn add_fields(
    fields: &mut Listed<ImageRemembered>,
    task: u32,
    noted: &[FieldAt],
) -> Result<(), AllocError>
    ensures { OnOk result (fields.new ≡ fields.old ++ map (drawn_field task) noted.now) }
{
    for field in noted {
        fields.push(draw_field(task, *field))?;
    }
    Ok(())
}

/// The picture with these objects and fields.
pub fn whole_picture(
    alloc: Global,
    live: &[LiveTask],
    in_use: &[InUse],
    objects: Listed<Picked>,
    fields: Listed<ImageRemembered>,
) -> Result<ImageData, AllocError>
    ensures { IfOk result (λ p. p ≡ record { tasks = map drawn_task live.now; chunks = map drawn_chunk in_use.now; objects = objects; fields = fields }) }
{
    let tasks = draw_tasks(alloc, live)?;
    let chunks = draw_chunks(alloc, in_use)?;
    Ok(ImageData {
        tasks,
        chunks,
        objects,
        fields,
    })
}
