// References as edges.

ghost use Rattle.std.specs.Prelude.{◌≡◌, ◌++◌, OnOk};
ghost use Rattle.std.specs.List.{flat_map};
ghost use Rattle.image_check.specs.ImageTasks.{owner_at};
ghost use Rattle.heap_graph.specs.Kinds.{colour_of, width_of, kind_attributes, running_attributes, dashed_edge, plain_edge, edge_to, edge_by, is_long, port_at, edges_of};
ghost use Rattle.dot_text.specs.Dot.{attribute, dot};

use crate::names::{object_name, port_name, task_cluster, task_name};
use dot_text::{add_attribute, begin_edge, end_statement};
use image_check::{ImageObject, Read, Relation, owner_of};
use std::alloc::{AllocError, Global};

fn colour_of(kind: Relation) -> &'static str
    ensures { result.now ≡ colour_of kind }
{
    match kind {
        Relation::Own => "#7b8394",
        Relation::Above => "#1f66d6",
        Relation::Below => "#cf2b2b",
        Relation::Apart => "#b01bb8",
    }
}

fn width_of(kind: Relation) -> &'static str
    ensures { result.now ≡ width_of kind }
{
    match kind {
        Relation::Below => "2",
        _ => "1",
    }
}

/// Adds the attributes of a kind.
pub(crate) fn add_kind(text: &mut Vec<u8>, kind: Relation) -> Result<(), AllocError>
    ensures { OnOk result (text.new.items ≡ text.old.items ++ flat_map attribute (kind_attributes kind)) }
{
    add_attribute(text, b"color", colour_of(kind).as_bytes())?;
    add_attribute(text, b"penwidth", width_of(kind).as_bytes())
}

// Adds the attributes of an edge into the heap of a running task.
fn add_running(
    alloc: Global,
    text: &mut Vec<u8>,
    task: u64,
    kind: Relation,
) -> Result<(), AllocError>
    ensures { OnOk result (text.new.items ≡ text.old.items ++ flat_map attribute (running_attributes task kind)) }
{
    let cluster = task_cluster(alloc, task)?;
    add_attribute(text, b"style", b"dashed")?;
    add_attribute(text, b"lhead", cluster.as_bytes())?;
    add_kind(text, kind)
}

/// A field of a task's object.
#[derive(Clone, Copy)]
pub(crate) struct DrawnField {
    pub(crate) task: u64,
    pub(crate) address: u64,
    pub(crate) place: u64,
}

// Adds an edge into the heap of a running task.
fn add_dashed(
    alloc: Global,
    text: &mut Vec<u8>,
    field: DrawnField,
    owner: u64,
    kind: Relation,
) -> Result<(), AllocError>
    ensures { OnOk result (text.new.items ≡ text.old.items ++ dot (dashed_edge field.address field.place owner kind)) }
{
    let source = object_name(alloc, field.address)?;
    let port = port_name(alloc, field.place)?;
    let target = task_name(alloc, owner)?;
    begin_edge(text, source.as_bytes(), port.as_bytes(), target.as_bytes())?;
    add_running(alloc, text, owner, kind)?;
    end_statement(text)
}

// Adds an edge to an object.
fn add_plain(
    alloc: Global,
    text: &mut Vec<u8>,
    field: DrawnField,
    reference: u64,
    kind: Relation,
) -> Result<(), AllocError>
    ensures { OnOk result (text.new.items ≡ text.old.items ++ dot (plain_edge field.address field.place reference kind)) }
{
    let source = object_name(alloc, field.address)?;
    let port = port_name(alloc, field.place)?;
    let target = object_name(alloc, reference)?;
    begin_edge(text, source.as_bytes(), port.as_bytes(), target.as_bytes())?;
    add_kind(text, kind)?;
    end_statement(text)
}

// Adds the edge of a reference into a heap.
fn add_edge_to(
    alloc: Global,
    text: &mut Vec<u8>,
    read: &Read,
    field: DrawnField,
    reference: u64,
    owner: u64,
) -> Result<(), AllocError>
    ensures { OnOk result (text.new.items ≡ text.old.items ++ dot (edge_to read.now field.task field.address field.place reference owner)) }
{
    let kind = read.tasks.relation(field.task, owner);
    if read.tasks.runs(owner) {
        add_dashed(alloc, text, field, owner, kind)
    } else {
        add_plain(alloc, text, field, reference, kind)
    }
}

// Adds the edge of a reference, if it has one.
fn add_edge(
    alloc: Global,
    text: &mut Vec<u8>,
    read: &Read,
    field: DrawnField,
    reference: u64,
) -> Result<(), AllocError>
    ensures { OnOk result (text.new.items ≡ text.old.items ++ flat_map dot (edge_by read.now field.task field.address field.place reference (owner_at read.now.chunks reference))) }
{
    match owner_of(&read.chunks, reference) {
        None => Ok(()),
        Some(owner) => add_edge_to(alloc, text, read, field, reference, owner),
    }
}

/// A record with more references has one field for all.
pub(crate) const FIELD_LIMIT: usize = 64;

/// Whether an object has one field for all its references.
pub(crate) fn is_long(object: &ImageObject) -> bool
    ensures { result ≡ is_long object.now }
{
    FIELD_LIMIT < object.references.len()
}

// The record's field for a field of the object.
fn port_at(long: bool, place: u64) -> u64
    ensures { result ≡ port_at long place }
{
    if long { 0 } else { place }
}

/// Adds the edges of a task's object.
pub(crate) fn add_edges(
    alloc: Global,
    text: &mut Vec<u8>,
    read: &Read,
    task: u64,
    object: &ImageObject,
) -> Result<(), AllocError>
    ensures { OnOk result (text.new.items ≡ text.old.items ++ flat_map dot (edges_of read.now task object.now)) }
{
    let long = is_long(object);
    for (place, reference) in object.references.as_slice().iter().enumerate() {
        let field = DrawnField {
            task,
            address: object.address,
            place: port_at(long, place as u64),
        };
        add_edge(alloc, text, read, field, *reference)?;
    }
    Ok(())
}
