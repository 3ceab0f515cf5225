// Objects as records.

ghost use Rattle.std.specs.Prelude.{◌≡◌, ◌≤◌, ◌+◌, ◌++◌, codes, length, OnOk, IfOk, string_bytes};
ghost use Rattle.std.specs.Fmt.{decimal};
ghost use Rattle.image_check.specs.Line.{most_fields};
ghost use Rattle.heap_graph.specs.Drawn.{port_title, port_titles, count_title, numbers_title, references_title, birth_title, object_title, node_of};
ghost use Rattle.dot_text.specs.Dot.{dot};

use crate::edges::{FIELD_LIMIT, is_long};
use crate::names::object_name;
use crate::words::{add_fields, add_kind_title, words_behind};
use dot_text::{add_attribute, begin_node, end_statement};
use image_check::{ImageBirth, ImageObject};
use std::alloc::{AllocError, Global};

// The field of a reference.
fn port_title(alloc: Global, place: u64, reference: u64) -> Result<String, AllocError>
    ensures { IfOk result (λ text. string_bytes text ≡ port_title place reference) }
{
    if reference == 0 {
        format!(in alloc; "|<f{place}> nil")
    } else {
        format!(in alloc; "|<f{place}> {reference}")
    }
}

fn birth_title(alloc: Global, birth: ImageBirth) -> Result<String, AllocError>
    ensures { IfOk result (λ text. string_bytes text ≡ birth_title birth) }
{
    format!(in alloc; "({},{})", birth.task, birth.count)
}

// Adds a text.
fn add_text(title: &mut Vec<u8>, text: &String) -> Result<(), AllocError>
    ensures { OnOk result (title.new.items ≡ title.old.items ++ string_bytes text.now) }
{
    title.extend_from_slice(text.as_bytes())
}

// Adds the field of a reference.
fn add_port(
    alloc: Global,
    title: &mut Vec<u8>,
    place: usize,
    reference: u64,
) -> Result<(), AllocError>
    ensures { OnOk result (title.new.items ≡ title.old.items ++ port_title place reference) }
{
    let text = port_title(alloc, place as u64, reference)?;
    add_text(title, &text)
}

// Adds the fields of the references.
fn add_ports(alloc: Global, title: &mut Vec<u8>, references: &[u64]) -> Result<(), AllocError>
    ensures { OnOk result (title.new.items ≡ title.old.items ++ port_titles 0 references.now) }
{
    for (place, reference) in references.iter().enumerate() {
        add_port(alloc, title, place, *reference)?;
    }
    Ok(())
}

// Adds one field for n references.
fn add_count(alloc: Global, title: &mut Vec<u8>, references: usize) -> Result<(), AllocError>
    ensures { OnOk result (title.new.items ≡ title.old.items ++ count_title references) }
{
    let text = format!(in alloc; "|<f0> references: {references}")?;
    add_text(title, &text)
}

// Adds the fields of an object's references.
fn add_references(
    alloc: Global,
    title: &mut Vec<u8>,
    object: &ImageObject,
) -> Result<(), AllocError>
    ensures { OnOk result (title.new.items ≡ title.old.items ++ references_title object.now) }
{
    if is_long(object) {
        add_count(alloc, title, object.references.len())
    } else {
        add_ports(alloc, title, object.references.as_slice())
    }
}

// Adds the number of an object's number fields.
fn add_number_count(alloc: Global, title: &mut Vec<u8>, numbers: u64) -> Result<(), AllocError>
    ensures { OnOk result (title.new.items ≡ title.old.items ++ codes "|numbers: " ++ decimal numbers) }
{
    let text = format!(in alloc; "|numbers: {numbers}")?;
    add_text(title, &text)
}

// Adds the numbers of an object as they are in its line, or only how many there are.
fn add_numbers(
    alloc: Global,
    title: &mut Vec<u8>,
    line: &[u8],
    object: &ImageObject,
) -> Result<(), AllocError>
    requires { length object.now.references + object.now.numbers ≤ most_fields }
    ensures { OnOk result (title.new.items ≡ title.old.items ++ numbers_title line.now object.now) }
{
    if FIELD_LIMIT < object.numbers as usize {
        add_number_count(alloc, title, object.numbers)
    } else {
        add_fields(title, words_behind(line, 7 + object.references.len()))
    }
}

fn object_title(alloc: Global, line: &[u8], object: &ImageObject) -> Result<Vec<u8>, AllocError>
    requires { length object.now.references + object.now.numbers ≤ most_fields }
    ensures { IfOk result (λ title. title.items ≡ object_title line.now object.now) }
{
    let mut title = Vec::new(alloc);
    let birth = birth_title(alloc, object.birth)?;
    add_text(&mut title, &birth)?;
    add_kind_title(&mut title, line)?;
    add_references(alloc, &mut title, object)?;
    add_numbers(alloc, &mut title, line, object)?;
    Ok(title)
}

/// Adds an object.
pub(crate) fn add_node(
    alloc: Global,
    text: &mut Vec<u8>,
    line: &[u8],
    object: &ImageObject,
) -> Result<(), AllocError>
    requires { length object.now.references + object.now.numbers ≤ most_fields }
    ensures { OnOk result (text.new.items ≡ text.old.items ++ dot (node_of line.now object.now)) }
{
    let name = object_name(alloc, object.address)?;
    let title = object_title(alloc, line, object)?;
    begin_node(text, name.as_bytes())?;
    add_attribute(text, b"shape", b"record")?;
    add_attribute(text, b"label", title.as_slice())?;
    end_statement(text)
}
