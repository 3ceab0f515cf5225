// The text of an image.

ghost use Rattle.std.specs.Prelude.{◌≡◌, ◌++◌, IfOk, OnOk};
ghost use Rattle.std.specs.List.{flat_map};
ghost use Rattle.std.specs.String.{string_bytes};
ghost use Rattle.run_trace.specs.Line.{spaced};
ghost use Rattle.heap_image.specs.Text.{reference_kind_word, head_words, end_words, reference_text, number_text, line, task_line, chunk_line, object_line, field_line, text_of};

use crate::picture::{ImageData, Picked};
use image_check::{ImageChunk, ImageRemembered, ImageTask};
use std::alloc::{AllocError, Global};

// The word for whether an object is mutable.
fn kind_text(mutable: bool) -> &'static str
    ensures { result.now ≡ reference_kind_word mutable }
{
    if mutable { "mut" } else { "imm" }
}

// The line of a task.
fn task_text(alloc: Global, task: &ImageTask) -> Result<String, AllocError>
    ensures { IfOk result (λ text. string_bytes text ≡ task_line task.now) }
{
    let state = task.state.word();
    match task.parent {
        None => format!(in alloc; "task {} - {state}\n", task.number),
        Some(parent) => format!(in alloc; "task {} {parent} {state}\n", task.number),
    }
}

// The line of a chunk.
fn chunk_text(alloc: Global, chunk: &ImageChunk) -> Result<String, AllocError>
    ensures { IfOk result (λ text. string_bytes text ≡ chunk_line chunk.now) }
{
    format!(in alloc; "chunk {} {} {}\n", chunk.number, chunk.owner, chunk.words)
}

// The start of an object's line, before its fields.
fn head_text(alloc: Global, object: &Picked) -> Result<String, AllocError>
    ensures { IfOk result (λ text. string_bytes text ≡ spaced (head_words object.now)) }
{
    let birth = object.birth;
    let kind = kind_text(object.mutable);
    let references = object.references.len();
    let numbers = object.numbers.len();
    format!(in alloc;
        "object {} {} {} {kind} {references} {numbers}",
        object.address, birth.task, birth.count
    )
}

// The line of a remembered field.
fn field_text(alloc: Global, field: &ImageRemembered) -> Result<String, AllocError>
    ensures { IfOk result (λ text. string_bytes text ≡ field_line field.now) }
{
    format!(in alloc;
        "remembered {} {} {}\n",
        field.task, field.address, field.place
    )
}

// The line of the end.
fn end_text(alloc: Global, objects: usize) -> Result<String, AllocError>
    ensures { IfOk result (λ text. string_bytes text ≡ line (end_words objects)) }
{
    format!(in alloc; "end: image {objects}\n")
}

// Adds a reference after a space.
fn add_reference(alloc: Global, text: &mut Vec<u8>, reference: u64) -> Result<(), AllocError>
    ensures { OnOk result (text.new.items ≡ text.old.items ++ reference_text reference) }
{
    let word = format!(in alloc; " {reference}")?;
    text.extend_from_slice(word.as_bytes())
}

// Adds a number after a space.
fn add_number(alloc: Global, text: &mut Vec<u8>, number: i64) -> Result<(), AllocError>
    ensures { OnOk result (text.new.items ≡ text.old.items ++ number_text number) }
{
    let word = format!(in alloc; " {number}")?;
    text.extend_from_slice(word.as_bytes())
}

// Adds references, each after a space.
fn add_references(alloc: Global, text: &mut Vec<u8>, references: &[u64]) -> Result<(), AllocError>
    ensures { OnOk result (text.new.items ≡ text.old.items ++ flat_map reference_text references.now) }
{
    for reference in references {
        add_reference(alloc, text, *reference)?;
    }
    Ok(())
}

// Adds numbers, each after a space.
fn add_numbers(alloc: Global, text: &mut Vec<u8>, numbers: &[i64]) -> Result<(), AllocError>
    ensures { OnOk result (text.new.items ≡ text.old.items ++ flat_map number_text numbers.now) }
{
    for number in numbers {
        add_number(alloc, text, *number)?;
    }
    Ok(())
}

// Adds the line of an object.
fn add_object(alloc: Global, text: &mut Vec<u8>, object: &Picked) -> Result<(), AllocError>
    ensures { OnOk result (text.new.items ≡ text.old.items ++ object_line object.now) }
{
    let head = head_text(alloc, object)?;
    text.extend_from_slice(head.as_bytes())?;
    add_references(alloc, text, object.references.as_slice())?;
    add_numbers(alloc, text, object.numbers.as_slice())?;
    text.extend_from_slice(b"\n")
}

// Adds the lines of tasks.
fn add_tasks(alloc: Global, text: &mut Vec<u8>, tasks: &[ImageTask]) -> Result<(), AllocError>
    ensures { OnOk result (text.new.items ≡ text.old.items ++ flat_map task_line tasks.now) }
{
    for task in tasks {
        let line = task_text(alloc, task)?;
        text.extend_from_slice(line.as_bytes())?;
    }
    Ok(())
}

// Adds the lines of chunks.
fn add_chunks(alloc: Global, text: &mut Vec<u8>, chunks: &[ImageChunk]) -> Result<(), AllocError>
    ensures { OnOk result (text.new.items ≡ text.old.items ++ flat_map chunk_line chunks.now) }
{
    for chunk in chunks {
        let line = chunk_text(alloc, chunk)?;
        text.extend_from_slice(line.as_bytes())?;
    }
    Ok(())
}

// Adds the lines of objects.
fn add_objects(alloc: Global, text: &mut Vec<u8>, objects: &[Picked]) -> Result<(), AllocError>
    ensures { OnOk result (text.new.items ≡ text.old.items ++ flat_map object_line objects.now) }
{
    for object in objects {
        add_object(alloc, text, object)?;
    }
    Ok(())
}

// Adds the line of a remembered field.
fn add_field(alloc: Global, text: &mut Vec<u8>, field: &ImageRemembered) -> Result<(), AllocError>
    ensures { OnOk result (text.new.items ≡ text.old.items ++ field_line field.now) }
{
    let line = field_text(alloc, field)?;
    text.extend_from_slice(line.as_bytes())
}

// Adds the lines of remembered fields.
fn add_fields(
    alloc: Global,
    text: &mut Vec<u8>,
    fields: &[ImageRemembered],
) -> Result<(), AllocError>
    ensures { OnOk result (text.new.items ≡ text.old.items ++ flat_map field_line fields.now) }
{
    for field in fields {
        add_field(alloc, text, field)?;
    }
    Ok(())
}

/// The text of an image.
pub fn picture_text(alloc: Global, picture: &ImageData) -> Result<Vec<u8>, AllocError>
    ensures { IfOk result (λ text. text.items ≡ text_of picture.now) }
{
    let mut text = Vec::new(alloc);
    text.extend_from_slice(b"image 1\n")?;
    add_tasks(alloc, &mut text, picture.tasks.as_slice())?;
    add_chunks(alloc, &mut text, picture.chunks.as_slice())?;
    add_objects(alloc, &mut text, picture.objects.as_slice())?;
    add_fields(alloc, &mut text, picture.fields.as_slice())?;
    let end = end_text(alloc, picture.objects.len())?;
    text.extend_from_slice(end.as_bytes())?;
    Ok(text)
}
